// Merging into lent room: one walk measures, a second one writes.
ghost use Rattle.std.specs.Prelude.{◌≡◌, ◌+◌, ◌≤◌};
ghost use Rattle.std.proofs.lemmas.List.Edits.{sets};
ghost use Rattle.bintree.specs.Reading.{read_at};
ghost use Rattle.bintree.specs.Walks.{is_alike, noted, joined_halves, Lays};
ghost use Rattle.bintree.specs.Told.{merging_told};
ghost use Rattle.bintree.specs.Merging.{merge_answer, merge_buffer};

use crate::Merged;
use crate::measure::measure;
use universe::{Refusal, Universe, Unwritten};

// What laying one merged tree tells: the place after the tree, the symbol of a merged tree that is one leaf (it waits
// for its brother) or else 0 (all is written), and the place after the merged tree.
#[derive(Clone, Copy)]
pub(crate) struct Laid {
    pub(crate) end: usize,
    pub(crate) symbol: u8,
    pub(crate) to: usize,
}

// Whether two merged parts, by their symbols, are leaves of one colour. A symbol that waits is a byte, 0 where none
// does, and no `Option`: no symbol is 0, what waits is the very byte that is written later, and the recursions hand it
// on in one register.
#[tactic(auto, unfolding(crate::specs::Walks::is_alike))]
pub fn is_alike(low: u8, high: u8) -> bool
    ensures { result ≡ is_alike low high }
{
    low != 0 && low == high
}

// Writes a leaf's symbol that waited for its brother, where there is one and room for it.
#[tactic(auto, unfolding(crate::specs::Walks::noted))]
pub fn note(out: &mut [u8], at: usize, symbol: u8)
    ensures { out.new ≡ noted out.old at symbol }
{
    if symbol != 0 && at < out.len() {
        out[at] = symbol;
    }
}

// The same at the place after `at`.
#[tactic(auto, using(crate::proofs::Lays::note_laws))]
fn note_next(out: &mut [u8], at: usize, symbol: u8)
    ensures { out.new ≡ noted out.old (at + 1) symbol }
{
    if at < out.len() {
        note(out, at + 1, symbol);
    }
}

// Writes `(` at `to` and the two parts behind it that are leaves, as far as there is room.
#[tactic(auto, using(crate::proofs::Lays::note_laws))]
pub fn join_halves(out: &mut [u8], to: usize, low: u8, middle: usize, high: u8)
    ensures { out.new ≡ joined_halves out.old to low middle high }
{
    note(out, to, b'(');
    note_next(out, to, low);
    note(out, middle, high);
}

// Copies symbols to a place, as far as there is room: one by one, since `copy_from_slice` would have the archive for C
// need `memmove` of its host.
pub fn copy(symbols: &[u8], out: &mut [u8], at: usize)
    ensures { out.new ≡ sets out.old at symbols.now }
{
    if at < out.len() {
        let count = symbols.len().min(out.len() - at);
        for i in 0..count {
            out[at + i] = symbols[i];
        }
    }
}

// Lays the merged tree of at most `left` levels that begins at `at` into `out` from `to` on, as far as there is room;
// none where there is no tree.
fn lay(expression: &[u8], at: usize, left: u64, out: &mut [u8], to: usize) -> Option<Laid>
    requires { to ≤ at }
    ensures { Lays at to out.old (read_at expression.now left at) result out.new }
{
    let symbol = *expression.get(at)?;
    match symbol {
        b'(' => {
            if left == 0 {
                return None;
            }
            let low = lay(expression, at + 1, left - 1, out, to + 1)?;
            let high = lay(expression, low.end, left - 1, out, low.to)?;
            if is_alike(low.symbol, high.symbol) {
                return Some(Laid {
                    end: high.end,
                    symbol: low.symbol,
                    to: to + 1,
                });
            }
            join_halves(out, to, low.symbol, low.to, high.symbol);
            Some(Laid {
                end: high.end,
                symbol: 0,
                to: high.to,
            })
        }
        b'B' | b'W' => Some(Laid {
            end: at + 1,
            symbol,
            to: to + 1,
        }),
        _ => None,
    }
}

// Writes the merged expression into `out`, or, where it is refused or does not fit, nothing.
pub fn merge(universe: Universe, expression: &[u8], out: &mut [u8]) -> Result<Merged, Unwritten>
    ensures value { merging_told result ≡ merge_answer universe expression.now out.old }
    ensures out_after { out.new ≡ merge_buffer universe expression.now out.old }
{
    universe.check()?;
    let levels = universe.levels();
    let whole = measure(expression, 0, levels, 0, 0, 0).ok_or(Refusal::BadExpression)?;
    if whole.end != expression.len() {
        return Err(Unwritten::Refused(Refusal::BadExpression));
    }
    let length = whole.length as u64;
    if out.len() < whole.length {
        return Err(Unwritten::NoRoom(length));
    }
    lay(expression, 0, levels, out, 0);
    note(out, 0, whole.symbol);
    Ok(Merged {
        length,
        held: whole.held,
    })
}
