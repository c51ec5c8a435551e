// Export: the recursion over the parts of an expression, which lays the sons that they stand for into room.
ghost use Rattle.std.specs.Prelude.{◌≡◌, ◌+◌, ◌^◌, ◌≤◌};
ghost use Rattle.bintree.specs.Reading.{read_at};
ghost use Rattle.octree.specs.Runs.{solid_of, most_held, filled, levels_in, Exporting, export_piece, export_room};

use crate::Piece;

// Of sons that are held back no more are written at once than half a cube has.
const MOST_HELD: usize = 4;

// `F` for `B` and `E` for `W`.
fn solid_of(symbol: u8) -> u8
    ensures { result ≡ solid_of symbol }
{
    if symbol == b'B' { b'F' } else { b'E' }
}

// How many sons a part with so many halvings to them stands for.
fn sons_in(inside: u64) -> usize
    requires { inside ≤ 3 }
    ensures { result ≡ 2 ^ inside }
{
    1 << inside
}

// Writes a symbol that was held back, so many times, where there is one, as far as there is room.
#[tactic(auto, using(crate::proofs::Exports::held_laws))]
pub(crate) fn write_held(out: &mut [u8], at: usize, count: usize, held: Option<u8>)
    requires { count ≤ most_held }
    ensures { out.new ≡ filled out.old at count held }
{
    if let Some(symbol) = held {
        bintree::copy(&[symbol; MOST_HELD][..count], out, at);
    }
}

// Lays the sons of `left` levels each that the part at `at` stands for, with `inside` halvings to them, from `to` on,
// as far as there is room; sons that are all solids of one colour are held back. A cube is laid as the run of its sons,
// behind the place of its `P`.
#[tactic(auto, using(crate::proofs::Exports::sons_laws))]
pub(crate) fn lay_sons(
    expression: &[u8],
    at: usize,
    left: u64,
    inside: u64,
    out: &mut [u8],
    to: usize,
) -> Piece
    requires exporting { Exporting expression.now left inside at to }
    requires inside_bound { inside ≤ 3 }
    ensures result_value { let part = read_at expression.now (levels_in left inside) at in
        result ≡ export_piece left inside at to part }
    ensures out_after { let part = read_at expression.now (levels_in left inside) at in
        out.new ≡ export_room out.old left inside to part }
{
    let symbol = expression[at];
    if symbol != b'(' {
        return Piece {
            held: Some(solid_of(symbol)),
            next: at + 1,
            end: to + sons_in(inside),
        };
    }
    if inside == 0 {
        let sons = lay_sons(expression, at, left - 1, 3, out, to + 1);
        if sons.held.is_some() {
            return Piece {
                end: to + 1,
                ..sons
            };
        }
        bintree::note(out, to, b'P');
        return sons;
    }
    let low = lay_sons(expression, at + 1, left, inside - 1, out, to);
    let high = lay_sons(expression, low.next, left, inside - 1, out, low.end);
    if low.is_alike(high) {
        return high;
    }
    let count = sons_in(inside - 1);
    write_held(out, to, count, low.held);
    write_held(out, low.end, count, high.held);
    Piece { held: None, ..high }
}
