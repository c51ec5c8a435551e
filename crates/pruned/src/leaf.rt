// A leaf's node, judged over a half of the block whose values it holds: a halfspace by its least and greatest value,
// one of which moves, a ball afresh.
ghost use Rattle.std.specs.Prelude.{◌≡◌, false, ◌%◌, ◌^◌, ◌<◌, eqb, pos, ◌*ℤ◌};
ghost use Rattle.std.specs.Int.Count.{count_trailing_zeros};
ghost use Rattle.csg.specs.Halfspace.{row_at};
ghost use Rattle.pruned.specs.Loading.{widened, whole_extremes, WholeReady};
ghost use Rattle.csg.specs.Surfaces.{surfaces_of};
ghost use Rattle.convert.specs.Small.{SmallCoefficient, SmallPlace};
ghost use Rattle.pruned.specs.Nodes.{
  SmallExtreme,
  SmallAmount,
  MovedBy,
  moved_towards,
  doubled,
  moving_below,
  moved_least,
  moved_greatest,
  value_code,
  turned_code,
  LeafJob,
  LeafJudged,
};

use crate::ball::code_of_ball;
use crate::marks::{side_code, turned_code};
use convert::{BLACK_BIT, WHITE_BIT, tested_code};
use universe::Universe;

// The least and the greatest value of a halfspace over a block.
#[derive(Clone, Copy)]
pub(crate) struct Extremes {
    pub least: i64,
    pub greatest: i64,
}

// What the values move by towards a half: the amount, for the low half the other way round.
fn towards(high: bool, amount: i64) -> i64
    requires { SmallAmount amount }
    ensures { result ≡ moved_towards high amount }
{
    if high { amount } else { -amount }
}

// What the values come to over a half, which moves one of them by this amount: that of the coefficient and half the
// length. What falls is added to the greatest and what is left of the amount to the least, so that no sign is a branch.
pub(crate) fn moved_by(amount: i64, high: bool, least: i64, greatest: i64) -> Extremes
    requires small_amount { SmallAmount amount }
    requires small_extreme { SmallExtreme least }
    requires small_extreme_2 { SmallExtreme greatest }
    ensures { MovedBy amount high least greatest result.least result.greatest }
{
    let step = towards(high, amount);
    let fall = step.min(0);
    Extremes {
        least: least + (step - fall),
        greatest: greatest + fall,
    }
}

// From so many doublings on nothing is left of 1: the length of no half, as the whole universe's is.
pub(crate) const NO_HALF: u64 = 64;

// How often 1 is doubled to a length that is a power of two: one call of the library, which needs no public function.
pub(crate) fn doublings(length: u64) -> u64
    ensures { result ≡ count_trailing_zeros 64 length }
{
    u64::from(length.trailing_zeros())
}

// The amount of a coefficient and a length to which 1 is doubled so often: the coefficient, doubled so often. It asks
// that this fits, and no public function asks anything: the crate above has its own.
pub(crate) fn amount(coefficient: i64, times: u64) -> i64
    requires small_coefficient { SmallCoefficient coefficient }
    requires times_bound { times < 64 }
    requires small_place { SmallPlace (2 ^ times) }
    ensures { result ≡ coefficient *ℤ pos (2 ^ times) }
{
    coefficient << times
}

// The same by the coefficient and half the length, to which 1 is doubled so often.
fn moved(coefficient: i64, times: u64, high: bool, least: i64, greatest: i64) -> Extremes
    requires small_coefficient { SmallCoefficient coefficient }
    requires times_bound { times < 64 }
    requires small_place { SmallPlace (doubled times) }
    requires small_extreme { SmallExtreme least }
    requires small_extreme_2 { SmallExtreme greatest }
    ensures least_value { result.least ≡ moved_least high coefficient (doubled times) least }
    ensures greatest_value { result.greatest ≡ moved_greatest high coefficient (doubled times) greatest }
{
    moved_by(amount(coefficient, times), high, least, greatest)
}

// The code of a halfspace with these values, over a block or at the centre of the voxel that it is.
pub(crate) fn extremes_code(centre: bool, least: i64, greatest: i64) -> u8
    requires small_extreme { SmallExtreme least }
    requires small_extreme_2 { SmallExtreme greatest }
    ensures { result ≡ value_code centre least greatest }
{
    if centre {
        return tested_code(0 <= least + greatest, true);
    }
    tested_code(0 <= least, greatest <= 0)
}

// A leaf's node judged: its code, and its values over the block.
#[derive(Clone, Copy)]
pub(crate) struct Judged {
    pub code: u8,
    pub least: i64,
    pub greatest: i64,
}

// The codes of nodes from which on they are sides of halfspaces, and of balls.
pub(crate) const FIRST_SIDE: u64 = 2 * csg::FIRST_HALFSPACE as u64;

pub(crate) const FIRST_BALL_SIDE: u64 = 2 * csg::FIRST_BALL as u64;

// The code of a node that is reversed is odd.
pub(crate) fn is_turned(code: u64) -> bool
    ensures { result ≡ eqb (code % 2) 1 }
{
    code % 2 == 1
}

// The code below which sides of halfspaces move to a half with this length; to no half none does.
fn moving_below(times: u64) -> u64
    ensures { result ≡ moving_below times }
{
    if times < NO_HALF {
        return FIRST_BALL_SIDE;
    }
    FIRST_SIDE
}

// The side of a halfspace with this code and these values over a block, judged by their signs.
fn judge_over(code: u64, least: i64, greatest: i64) -> Judged
    requires small_extreme { SmallExtreme least }
    requires small_extreme_2 { SmallExtreme greatest }
    ensures code_value { result.code ≡ turned_code (eqb (code % 2) 1) (value_code false least greatest) }
    ensures least_value { (result.least ≡ least) × (result.greatest ≡ greatest) }
{
    Judged {
        code: side_code(is_turned(code), 0 <= least, greatest <= 0),
        least,
        greatest,
    }
}

// A halfspace's side with these values over the block, or at the centre of the voxel that it is, judged.
fn judge_side(turned: bool, centre: bool, least: i64, greatest: i64) -> Judged
    requires small_extreme { SmallExtreme least }
    requires small_extreme_2 { SmallExtreme greatest }
    ensures code_value { result.code ≡ turned_code turned (value_code centre least greatest) }
    ensures least_value { (result.least ≡ least) × (result.greatest ≡ greatest) }
{
    let bits = extremes_code(centre, least, greatest);
    let judged = turned_code(turned, bits);
    Judged {
        code: judged,
        least,
        greatest,
    }
}

// Judges the node of a leaf over a half of the block whose values it holds, or over that block itself, of which alone
// the colour at its centre may be asked.
pub(crate) fn judge_leaf(
    axes: usize,
    rows: &[i64],
    balls: &[i64],
    low: &[u64; Universe::MOST_AXES as usize],
    side: &[u64; Universe::MOST_AXES as usize],
    axis: usize,
    times: u64,
    high: bool,
    centre: bool,
    code: u64,
    least: i64,
    greatest: i64,
) -> Judged
    requires { let surfaces = surfaces_of rows.now balls.now in
        LeafJob surfaces axes low.now side.now axis (doubled times) high centre code least greatest }
    ensures { let surfaces = surfaces_of rows.now balls.now in
        ((job : LeafJob surfaces axes low.now side.now axis (doubled times) high centre code least greatest)
        → LeafJudged job result.code result.least result.greatest) }
{
    if code < FIRST_SIDE {
        let constant = if code == 0 { WHITE_BIT } else { BLACK_BIT };
        return Judged {
            code: constant,
            least,
            greatest,
        };
    }
    if code < moving_below(times) {
        let row = ((code - FIRST_SIDE) / 2) as usize;
        let coefficient = rows[csg::ROW_LENGTH * row + 1 + axis];
        let values = moved(coefficient, times, high, least, greatest);
        return judge_over(code, values.least, values.greatest);
    }
    let turned = is_turned(code);
    if code < FIRST_BALL_SIDE {
        return judge_side(turned, centre, least, greatest);
    }
    let ball = ((code - FIRST_BALL_SIDE) / 2) as usize;
    let bits = code_of_ball(axes, balls, ball, low, side, centre);
    let judged = turned_code(turned, bits);
    Judged {
        code: judged,
        least,
        greatest,
    }
}

// The values over a block that begins at 0 along every axis, with what one more axis adds.
fn widened(values: Extremes, coefficient: i64, side: u64) -> Extremes
    requires small_coefficient { SmallCoefficient coefficient }
    requires small_place { SmallPlace side }
    requires small_extreme { SmallExtreme values.least }
    requires small_extreme_2 { SmallExtreme values.greatest }
    ensures { result ≡ widened values coefficient side }
{
    let wider = moved_by(
        coefficient * (side as i64),
        true,
        values.greatest,
        values.least,
    );
    Extremes {
        least: wider.greatest,
        greatest: wider.least,
    }
}

// The values of row i over the whole universe, which has these sides.
pub(crate) fn whole_extremes(
    axes: usize,
    rows: &[i64],
    i: usize,
    side: &[u64; Universe::MOST_AXES as usize],
) -> Extremes
    requires { WholeReady axes rows.now i side.now }
    ensures { result ≡ whole_extremes axes (row_at rows.now i) side.now }
{
    let first = csg::ROW_LENGTH * i;
    let mut values = Extremes {
        least: rows[first],
        greatest: rows[first],
    };
    for axis in 0..axes {
        values = widened(values, rows[first + 1 + axis], side[axis]);
    }
    values
}
