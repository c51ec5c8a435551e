// The colour at a voxel: that of the part at the end of the voxel's path.
ghost use Rattle.std.specs.Prelude.{◌≡◌, cond, ltb, eqb, take};
ghost use Rattle.universe.specs.Universe.{levels, side_along};
ghost use Rattle.universe.specs.Voxel.{voxel_refusal, path_to};
ghost use Rattle.universe.specs.Told.{number_told};
ghost use Rattle.bintree.specs.Told.{colour_told};
ghost use Rattle.bintree.specs.Parts.{colour_answer};
ghost use Rattle.bintree.specs.Walks.{symbol_colour};

use crate::Colour;
use crate::place::trace;
use universe::{Accepted, Refusal, Universe};

// Whether a voxel's place along an axis is inside the universe; above the universe's axes it is 0.
#[tactic(auto, using(crate::proofs::Voxels::inside_laws))]
fn is_inside(accepted: Accepted, axis: u64, place: u64) -> bool
    ensures { let u = accepted.universe in
        result ≡ cond (ltb axis u.axes) (ltb place (side_along u axis)) (eqb place 0) }
{
    match accepted.side(axis) {
        Some(side) => place < side,
        None => place == 0,
    }
}

// Refused where a voxel is outside the universe.
fn check_voxel(
    accepted: Accepted,
    voxel: [u64; Universe::MOST_AXES as usize],
) -> Result<(), Refusal>
    ensures { number_told result ≡ voxel_refusal accepted.universe voxel }
{
    for (axis, place) in voxel.iter().enumerate() {
        if !is_inside(accepted, axis as u64, *place) {
            return Err(Refusal::Outside);
        }
    }
    Ok(())
}

// The halves that lead to a voxel from the whole universe, one for each level, found from the last up. `rest` has the
// voxel's places in blocks of the level that is reached.
#[tactic(auto, using(crate::proofs::Voxels::leading_laws))]
fn path_to(
    accepted: Accepted,
    voxel: [u64; Universe::MOST_AXES as usize],
) -> [u8; Universe::MOST_LEVELS as usize]
    ensures { take (levels accepted.universe) result ≡ path_to accepted.universe voxel }
{
    let axes = accepted.axes_left();
    let levels = accepted.levels() as usize;
    let mut path = [0u8; Universe::MOST_LEVELS as usize];
    let mut rest = voxel;
    for left in 0..levels {
        let axis = axes[left];
        path[levels - 1 - left] = (rest[axis] % 2) as u8;
        rest[axis] /= 2;
    }
    path
}

// The colour that a symbol stands for.
fn colour_of(symbol: u8) -> Colour
    ensures { result ≡ symbol_colour symbol }
{
    if symbol == b'B' {
        Colour::Black
    } else {
        Colour::White
    }
}

// The colour at a voxel.
pub fn colour_at(
    universe: Universe,
    expression: &[u8],
    voxel: [u64; Universe::MOST_AXES as usize],
) -> Result<Colour, Refusal>
    ensures { colour_told result ≡ colour_answer universe expression.now voxel }
{
    let accepted = universe.accepted()?;
    let levels = accepted.levels();
    let path = path_to(accepted, voxel);
    let found = trace(expression, 0, levels, &path[..levels as usize]).ok_or(
        Refusal::BadExpression,
    )?;
    if found.end != expression.len() {
        return Err(Refusal::BadExpression);
    }
    check_voxel(accepted, voxel)?;
    Ok(colour_of(expression[found.start]))
}
