// The part for a block, asked by a path: one walk that follows the path's halves and reads the rest.
ghost use Rattle.std.specs.Prelude.{◌≡◌, [], ◌≤◌};
ghost use Rattle.universe.specs.Universe.{most_levels};
ghost use Rattle.universe.specs.Told.{number_told};
ghost use Rattle.bintree.specs.Told.{place_told};
ghost use Rattle.bintree.specs.Reading.{read_at};
ghost use Rattle.bintree.specs.Parts.{path_refusal, part_refusal, place_answer, part_answer, part_pointer};
ghost use Rattle.bintree.specs.Walks.{traced};

use crate::Placed;
use crate::walk::walk;
use universe::{Accepted, Refusal, Universe};

// What following a path in one tree tells: the place after the tree, where the part stands and its length.
#[derive(Clone, Copy)]
pub(crate) struct Traced {
    pub(crate) end: usize,
    pub(crate) start: usize,
    pub(crate) length: usize,
}

// Refused where a path is longer than the levels or has a byte that is neither 0 nor 1.
fn check_path(accepted: Accepted, path: &[u8]) -> Result<(), Refusal>
    ensures { number_told result ≡ path_refusal accepted.universe path.now }
{
    if accepted.levels() < path.len() as u64 || path.iter().any(|half| 1 < *half) {
        return Err(Refusal::Outside);
    }
    Ok(())
}

// The tree of at most `left` levels that begins at `at`, whole.
fn all(expression: &[u8], at: usize, left: u64) -> Option<Traced>
    requires { left ≤ most_levels }
    ensures { result ≡ traced at (read_at expression.now left at) [] }
{
    let end = walk(expression, at, left)?;
    Some(Traced {
        end,
        start: at,
        length: end - at,
    })
}

// Follows a path in the tree of at most `left` levels that begins at `at`.
pub(crate) fn trace(expression: &[u8], at: usize, left: u64, path: &[u8]) -> Option<Traced>
    requires { left ≤ most_levels }
    ensures { result ≡ traced at (read_at expression.now left at) path.now }
{
    let Some((half, rest)) = path.split_first() else {
        return all(expression, at, left);
    };
    let symbol = *expression.get(at)?;
    if symbol != b'(' {
        return all(expression, at, left);
    }
    if left == 0 {
        return None;
    }
    if *half == 0 {
        let low = trace(expression, at + 1, left - 1, rest)?;
        let end = walk(expression, low.end, left - 1)?;
        Some(Traced { end, ..low })
    } else {
        let middle = walk(expression, at + 1, left - 1)?;
        trace(expression, middle, left - 1, rest)
    }
}

// Where the part for the block at the end of a path stands in an expression, and its length.
pub fn part_place(universe: Universe, expression: &[u8], path: &[u8]) -> Result<Placed, Refusal>
    ensures { place_told result ≡ place_answer universe expression.now path.now }
{
    let accepted = universe.accepted()?;
    let found = trace(expression, 0, accepted.levels(), path).ok_or(Refusal::BadExpression)?;
    if found.end != expression.len() {
        return Err(Refusal::BadExpression);
    }
    check_path(accepted, path)?;
    Ok(Placed {
        start: found.start as u64,
        length: found.length as u64,
    })
}

// Refused where there is no part for a path: 2, 7 or 9.
pub fn check_part(universe: Universe, expression: &[u8], path: &[u8]) -> Result<(), Refusal>
    ensures { number_told result ≡ part_refusal universe expression.now path.now }
{
    part_place(universe, expression, path)?;
    Ok(())
}

// The part for the block at the end of a path: a part of the lent expression, empty where it is refused.
pub fn part<'a, 'b>(universe: Universe, expression: &'a [u8], path: &'b [u8]) -> &'a [u8]
    ensures result_value { result.now ≡ part_answer universe expression.now path.now }
    ensures ref_ptr_value { result.ref_ptr ≡ part_pointer universe expression.entry path.now }
{
    let Ok(placed) = part_place(universe, expression, path) else {
        return &expression[..0];
    };
    let start = placed.start as usize;
    let end = start + placed.length as usize;
    &expression[start..end]
}
