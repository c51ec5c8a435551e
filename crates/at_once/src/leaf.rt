// A leaf judged over a block: a halfspace by its least and its greatest value, which its value at the block's low end
// and the block's sides make with no product, a ball by its distances.
ghost use Rattle.std.specs.Prelude.{◌≡◌, true, ◌%◌, ◌<◌, eqb, pos};
ghost use Rattle.lemmas.specs.Sums.{total};
ghost use Rattle.universe.specs.Universe.{most_axes};
ghost use Rattle.csg.specs.Halfspace.{row_at};
ghost use Rattle.csg.specs.Surfaces.{surfaces_of};
ghost use Rattle.at_once.specs.Words.{RowNamed};
ghost use Rattle.at_once.specs.Values.{along_of, fall_along, is_row_side, RowFound};
ghost use Rattle.at_once.specs.Moves.{lengths_by, times_of, row_of, SmallTimes, RowStands, ValueOf};
ghost use Rattle.at_once.specs.Pruning.{LeafJob, LeafJudged};

use crate::ball::code_of_ball;
use crate::moves::amount;
use convert::{BLACK_BIT, WHITE_BIT};
use pruned::{side_code, turned_code};
use universe::Universe;

// The least and the greatest value of a halfspace over a block.
#[derive(Clone, Copy)]
struct Extremes {
    least: i64,
    greatest: i64,
}

// What an axis gives over a length to which 1 is doubled so often: the coefficient of row i, doubled so often.
fn along(rows: &[i64], i: usize, times: &[u64; Universe::MOST_AXES as usize], axis: usize) -> i64
    requires row_named { RowNamed rows.now i }
    requires small_times { SmallTimes times.now }
    requires axis_lt_most_axes { axis < most_axes }
    ensures { result ≡ along_of (row_at rows.now i) (lengths_by times.now) axis }
{
    amount(rows[csg::ROW_LENGTH * i + 1 + axis], times[axis])
}

// What all axes give.
fn sum_along(rows: &[i64], i: usize, times: &[u64; Universe::MOST_AXES as usize]) -> i64
    requires row_named { RowNamed rows.now i }
    requires small_times { SmallTimes times.now }
    ensures { result ≡ total most_axes (along_of (row_at rows.now i) (lengths_by times.now)) }
{
    let first = along(rows, i, times, 0);
    let second = along(rows, i, times, 1);
    let third = along(rows, i, times, 2);
    let fourth = along(rows, i, times, 3);
    first + second + third + fourth
}

// What falls of it: along each axis all that it gives where that is negative, else nothing.
fn fall_along(rows: &[i64], i: usize, times: &[u64; Universe::MOST_AXES as usize]) -> i64
    requires row_named { RowNamed rows.now i }
    requires small_times { SmallTimes times.now }
    ensures { result ≡ total most_axes (fall_along (row_at rows.now i) (lengths_by times.now)) }
{
    let first = along(rows, i, times, 0).min(0);
    let second = along(rows, i, times, 1).min(0);
    let third = along(rows, i, times, 2).min(0);
    let fourth = along(rows, i, times, 3).min(0);
    first + second + third + fourth
}

// The values of row i over the block at whose low end it has the value that is carried, with sides to which 1 is
// doubled so often.
fn extremes_of_row(
    rows: &[i64],
    i: usize,
    values: &[i64; csg::MOST_ROWS],
    times: &[u64; Universe::MOST_AXES as usize],
) -> Extremes
    requires { RowStands rows.now i values.now times.now }
    ensures { (job : RowStands rows.now i values.now times.now)
        → RowFound job.over result.least result.greatest }
{
    let value = values[i];
    let all = sum_along(rows, i, times);
    let fall = fall_along(rows, i, times);
    Extremes {
        least: value + fall,
        greatest: value + (all - fall),
    }
}

// The codes of leaves from which on they are sides of halfspaces, and of balls.
const FIRST_SIDE: u16 = 2 * csg::FIRST_HALFSPACE;

const FIRST_BALL_SIDE: u16 = 2 * csg::FIRST_BALL;

// The code of a side that is reversed is odd. A node's code in crate `pruned` is longer, and one line there as well.
fn is_turned(code: u16) -> bool
    ensures { result ≡ eqb (code % 2) 1 }
{
    code % 2 == 1
}

// Whether a leaf's code is that of a halfspace's side.
pub(crate) fn is_row_side(code: u16) -> bool
    ensures { result ≡ is_row_side code }
{
    FIRST_SIDE <= code && code < FIRST_BALL_SIDE
}

// The row of a halfspace's side, by its code.
pub(crate) fn row_of(code: u16) -> usize
    requires { is_row_side code ≡ true }
    ensures { result ≡ row_of code }
{
    code as usize / 2 - csg::FIRST_HALFSPACE as usize
}

// Judges the leaf with this code over the block.
pub(crate) fn judge_leaf(
    axes: usize,
    rows: &[i64],
    balls: &[i64],
    low: &[u64; Universe::MOST_AXES as usize],
    side: &[u64; Universe::MOST_AXES as usize],
    code: u16,
    values: &[i64; csg::MOST_ROWS],
    times: &[u64; Universe::MOST_AXES as usize],
) -> u8
    requires fact { let surfaces = surfaces_of rows.now balls.now in
        LeafJob surfaces axes low.now side.now code }
    requires value_of { ValueOf rows.now low.now values.now code }
    requires times_value { times.now ≡ times_of side.now }
    ensures { let surfaces = surfaces_of rows.now balls.now in
        ((job : LeafJob surfaces axes low.now side.now code) → LeafJudged job result) }
{
    if is_row_side(code) {
        let ends = extremes_of_row(rows, row_of(code), values, times);
        return side_code(is_turned(code), 0 <= ends.least, ends.greatest <= 0);
    }
    if code < FIRST_SIDE {
        if code == 0 {
            return WHITE_BIT;
        }
        return BLACK_BIT;
    }
    let turned = is_turned(code);
    let ball = ((code - FIRST_BALL_SIDE) / 2) as usize;
    let bits = code_of_ball(axes - 1, balls, ball, low, side);
    turned_code(turned, bits)
}
