// Two voxels at once, the halves of a block with one level left: the colours at their centres as two digits, that of
// the low half first, 1 where it is BLACK; of a surface, of a leaf, and of the trees that are carried.
ghost use Rattle.std.specs.Prelude.{◌≡◌, ◌+◌, ◌*◌, ◌-◌, ◌%◌, ◌<◌, ◌≤◌, ◌^◌, eqb, pos, ◌+ℤ◌, ◌-ℤ◌, length, get_or, set};
ghost use Rattle.std.specs.Int.Signed.{le_z};
ghost use Rattle.universe.specs.Universe.{most_axes};
ghost use Rattle.csg.specs.Ball.{ball_at};
ghost use Rattle.csg.specs.Surfaces.{surfaces_of};
ghost use Rattle.convert.specs.Codes.{ball_code_at};
ghost use Rattle.convert.specs.Shapes.{end_limit};
ghost use Rattle.convert.specs.Small.{SmallCoefficient, BallReady};
ghost use Rattle.pruned.specs.Nodes.{SmallExtreme, most_shapes};
ghost use Rattle.pruned.specs.Laying.{joined_packed, joined_out};
ghost use Rattle.pruned.specs.Pair.{
  next_places,
  pair_of,
  is_black,
  turned_pair,
  joined_pair,
  whole_pair,
  PairLeaf,
  leaf_pair,
  PairTrees,
  below_symbol,
  above_symbol,
  trees_pair,
};

use crate::ball::code_at_voxel;
use crate::lay::join;
use crate::leaf::{FIRST_BALL_SIDE, FIRST_SIDE};
use crate::prune::{INTERSECTION_NODE, MOST_SHAPES, NODE_LENGTH, code_at, is_join};
use convert::{BLACK_BIT, symbol_of};
use universe::Universe;

// Both digits.
const BOTH: u8 = 3;

// The digits of two colours.
fn pair_of(below: bool, above: bool) -> u8
    ensures { result ≡ pair_of below above }
{
    below as u8 + 2 * (above as u8)
}

// The digits of a halfspace with these values over the block: by twice the value at its centre, which is their sum,
// less the coefficient along the axis and more by it.
fn pair_of_row(coefficient: i64, least: i64, greatest: i64) -> u8
    requires small_coefficient { SmallCoefficient coefficient }
    requires small_extreme { SmallExtreme least }
    requires small_extreme_2 { SmallExtreme greatest }
    ensures { result ≡ pair_of (le_z (pos 0) ((least +ℤ greatest) -ℤ coefficient))
        (le_z (pos 0) ((least +ℤ greatest) +ℤ coefficient)) }
{
    let sum = least + greatest;
    pair_of(0 <= sum - coefficient, 0 <= sum + coefficient)
}

// The digits of ball i, at the voxel with these low places and at the next along the axis.
fn pair_of_ball(
    places: usize,
    balls: &[i64],
    i: usize,
    low: &[u64; Universe::MOST_AXES as usize],
    axis: usize,
) -> u8
    requires ball_ready { BallReady places balls.now i low.now }
    requires ball_ready_2 { BallReady places balls.now i (next_places low.now axis) }
    requires low_len { length low.now ≡ most_axes }
    requires axis_lt_most_axes { axis < most_axes }
    ensures { let ball = ball_at balls.now i in
        result ≡ pair_of (is_black (ball_code_at places ball low.now))
        (is_black (ball_code_at places ball (next_places low.now axis))) }
{
    let mut next = *low;
    next[axis] += 1;
    let below = code_at_voxel(places, balls, i, low);
    let above = code_at_voxel(places, balls, i, &next);
    pair_of(below == BLACK_BIT, above == BLACK_BIT)
}

// The digits of the side with this code: of one that is reversed, whose code is odd, each is exchanged.
fn turned_pair(code: u64, pair: u8) -> u8
    requires { pair ≤ 3 }
    ensures { result ≡ turned_pair (eqb (code % 2) 1) pair }
{
    if code % 2 == 1 {
        return BOTH - pair;
    }
    pair
}

// The digits of a leaf's node with these values over the block.
fn pair_of_leaf(
    axes: usize,
    rows: &[i64],
    balls: &[i64],
    low: &[u64; Universe::MOST_AXES as usize],
    axis: usize,
    code: u64,
    least: i64,
    greatest: i64,
) -> u8
    requires { let surfaces = surfaces_of rows.now balls.now in
        PairLeaf surfaces axes low.now axis code least greatest }
    ensures { let surfaces = surfaces_of rows.now balls.now in
        ((job : PairLeaf surfaces axes low.now axis code least greatest) → result ≡ leaf_pair job) }
{
    if code == 0 {
        return 0;
    }
    if code < FIRST_SIDE {
        return BOTH;
    }
    if code < FIRST_BALL_SIDE {
        let row = ((code - FIRST_SIDE) / 2) as usize;
        let coefficient = rows[csg::ROW_LENGTH * row + 1 + axis];
        let pair = pair_of_row(coefficient, least, greatest);
        return turned_pair(code, pair);
    }
    let ball = ((code - FIRST_BALL_SIDE) / 2) as usize;
    let pair = pair_of_ball(axes - 1, balls, ball, low, axis);
    turned_pair(code, pair)
}

// The digits of two shapes joined by an operator.
fn joined_pair(meet: bool, first: u8, second: u8) -> u8
    ensures { result ≡ joined_pair meet first second }
{
    if meet {
        return first & second;
    }
    first | second
}

// The digits of one tree, or of two intersected.
fn whole_pair(pairs: &[u8; MOST_SHAPES], pending: usize) -> u8
    ensures { result ≡ whole_pair pairs.now pending }
{
    if pending == 2 {
        return joined_pair(true, pairs[0], pairs[1]);
    }
    pairs[0]
}

// The digits of the trees whose nodes stand from a place on, with their values over the block: one pass in postfix
// order.
fn trees_pair(
    axes: usize,
    rows: &[i64],
    balls: &[i64],
    low: &[u64; Universe::MOST_AXES as usize],
    axis: usize,
    work: &[i64],
    from: usize,
    count: usize,
    pairs: &mut [u8; MOST_SHAPES],
) -> u8
    requires fact { let surfaces = surfaces_of rows.now balls.now in
        PairTrees surfaces axes low.now axis work.now from count }
    requires pairs_len { length pairs.old ≡ most_shapes }
    ensures fact_2 { let surfaces = surfaces_of rows.now balls.now in
        ((job : PairTrees surfaces axes low.now axis work.now from count)
        → result ≡ trees_pair job) }
    ensures pairs_len_2 { length pairs.new ≡ most_shapes }
{
    let mut pending: usize = 0;
    for i in from..from + count {
        let code = code_at(work, i);
        if is_join(code) {
            let second = pairs[pending - 1];
            let first = pairs[pending - 2];
            pairs[pending - 2] = joined_pair(INTERSECTION_NODE <= code, first, second);
            pending -= 1;
        } else {
            let least = work[NODE_LENGTH * i + 1];
            let greatest = work[NODE_LENGTH * i + 2];
            pairs[pending] = pair_of_leaf(axes, rows, balls, low, axis, code, least, greatest);
            pending += 1;
        }
    }
    whole_pair(pairs, pending)
}

// Lays both voxels, and joins them, as `lay_halves` does.
pub(crate) fn lay_pair(
    axes: usize,
    rows: &[i64],
    balls: &[i64],
    low: &[u64; Universe::MOST_AXES as usize],
    axis: usize,
    merging: bool,
    work: &[i64],
    from: usize,
    count: usize,
    pairs: &mut [u8; MOST_SHAPES],
    looked: &mut [u64; 1],
    out: &mut [u8],
    at: usize,
) -> usize
    requires fact { let surfaces = surfaces_of rows.now balls.now in
        PairTrees surfaces axes low.now axis work.now from count }
    requires pairs_len { length pairs.old ≡ most_shapes }
    requires count_bound { get_or looked.old 0 0 + 2 * count < 2 ^ 64 }
    requires at_bound { at + 3 < end_limit }
    ensures fact_2 { let surfaces = surfaces_of rows.now balls.now in
        ((job : PairTrees surfaces axes low.now axis work.now from count)
        → result ≡ joined_packed merging at (below_symbol job) (above_symbol job) (at + 3)) }
    ensures fact_3 { let surfaces = surfaces_of rows.now balls.now in
        ((job : PairTrees surfaces axes low.now axis work.now from count)
        → out.new
        ≡ joined_out merging out.old at (below_symbol job) (at + 2) (above_symbol job)) }
    ensures looked_after { looked.new
        ≡ set looked.old 0 (get_or looked.old 0 0 + 2 * count) }
    ensures pairs_len_2 { length pairs.new ≡ most_shapes }
{
    let pair = trees_pair(axes, rows, balls, low, axis, work, from, count, pairs);
    looked[0] += 2 * count as u64;
    join(
        merging,
        out,
        at,
        symbol_of(pair % 2),
        at + 2,
        symbol_of(pair / 2),
        at + 3,
    )
}
