// The swept space: where in the other axes an expression is black at some place of one axis.
#![tactic(auto)]

mod block;
mod places;

ghost use Rattle.std.specs.Prelude.{◌≡◌, length};
ghost use Rattle.std.proofs.lemmas.List.Edits.{sets};
ghost use Rattle.bintree.specs.Answers.{written_answer, written_buffer};
ghost use Rattle.bintree.specs.Told.{writing_told};
ghost use Rattle.sweep.specs.Answers.{Ready, swept_symbols, swept_answer, swept_buffer};
ghost use Rattle.sweep.specs.Told.{swept_told};

use block::{Sweep, sweep_block};
use universe::{Universe, Unwritten};

// Places that suffice for every universe and every axis.
const MOST_PLACES: usize = (Universe::MOST_AXES as usize - 1) * (1 << Universe::MOST_BITS)
    + 2 * Universe::LONGEST_SIDE as usize;

// The universe of what is written and its length.
#[derive(Clone, Copy, Debug, PartialEq, Eq)]
pub struct Swept {
    pub universe: Universe,
    pub length: u64,
}

// Writes the merged sweep of an expression along an axis, as far as there is room, and gives its length. The expression
// is one tree over the whole universe, which begins at place 0.
fn write_swept(universe: Universe, expression: &[u8], axis: u64, out: &mut [u8]) -> usize
    requires { Ready universe expression.now axis }
    ensures value { result ≡ length (swept_symbols universe expression.now axis) }
    ensures out_after { let symbols = swept_symbols universe expression.now axis in
        out.new ≡ sets out.old 0 symbols }
{
    let axes = universe.axes_left();
    let levels = universe.levels();
    let dropped = (axis - 1) as usize;
    let sweep = Sweep {
        expression,
        axes: &axes,
        axis: dropped,
    };
    let mut work = [0usize; MOST_PLACES];
    let piece = sweep_block(sweep, levels, &mut work, 1, out, 0);
    bintree::note(out, 0, piece.held.unwrap_or(0));
    piece.end
}

// The same, or nothing where it does not fit. It is no longer than the expression, so that it is measured only where
// less room is lent. The crate `octree` has one function of this for both its passes; one for it and this one would be
// a new public name.
fn write_fitting(
    universe: Universe,
    expression: &[u8],
    axis: u64,
    out: &mut [u8],
) -> Result<u64, Unwritten>
    requires { Ready universe expression.now axis }
    ensures result_value { let symbols = swept_symbols universe expression.now axis in
        writing_told result ≡ written_answer 0 out.old symbols }
    ensures out_after { let symbols = swept_symbols universe expression.now axis in
        out.new ≡ written_buffer 0 out.old symbols }
{
    if expression.len() <= out.len() {
        return Ok(write_swept(universe, expression, axis, out) as u64);
    }
    let needed = write_swept(universe, expression, axis, &mut []);
    if out.len() < needed {
        return Err(Unwritten::NoRoom(needed as u64));
    }
    write_swept(universe, expression, axis, out);
    Ok(needed as u64)
}

// Writes the sweep of an expression along an axis, counted from 1, into `out`: the merged expression of the universe
// without that axis which is black exactly where a voxel over it is. Where it is refused or does not fit, nothing; with
// too little room comes the length needed.
pub fn sweep_along(
    universe: Universe,
    expression: &[u8],
    axis: u64,
    out: &mut [u8],
) -> Result<Swept, Unwritten>
    ensures value { swept_told result ≡ swept_answer universe expression.now axis out.old }
    ensures out_after { out.new ≡ swept_buffer universe expression.now axis out.old }
{
    let below = universe.without_axis(axis);
    below.check()?;
    bintree::well_formed(universe, expression)?;
    let length = write_fitting(universe, expression, axis, out)?;
    Ok(Swept {
        universe: below,
        length,
    })
}
