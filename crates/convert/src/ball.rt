// A ball over two blocks, or at the centres of two voxels: the squares of its distances along the place axes, added up,
// against the radius squared. The halves of a block begin at the same place along all axes but one, and there what is
// found of the one is found of the other.
ghost use Rattle.std.specs.Prelude.{◌≡◌, true, ◌+◌, ◌-◌, ◌≤◌, ◌<◌, leb, ltb};
ghost use Rattle.universe.specs.Universe.{least_axes};
ghost use Rattle.csg.specs.Ball.{ball_count, ball_at, farthest, radius_squared};
ghost use Rattle.convert.specs.Codes.{ball_code, paired, tested_code, voxel_code};
ghost use Rattle.convert.specs.Codes.{middle_square, squares_along};
ghost use Rattle.convert.specs.Small.{SmallPlace, SmallPlaces, BallCentre, SmallBall, BallReady};

use crate::marks::{CENTRE_UNIT, WHITE_BIT, paired, tested_code};
use universe::Universe;

// The squares of the distances to the nearest and to the farthest point of a block along one place axis, and that to
// the centre of the voxel that begins where the block does, less a quarter.
#[derive(Clone, Copy)]
pub(crate) struct Squares {
    pub near: u64,
    pub far: u64,
    pub middle: u64,
}

// How far the farther end of a block is along one axis. This and `radius_squared` ask that the numbers are small, and
// no public function asks anything: the crates above have their own.
fn farthest(begin: u64, length: u64, centre: i64) -> u64
    requires small_place { SmallPlace begin }
    requires small_place_2 { SmallPlace length }
    requires ball_centre { BallCentre centre }
    ensures { result ≡ farthest begin (begin + length) centre }
{
    let before = centre - begin as i64;
    let after = length as i64 - before;
    before.max(after) as u64
}

// The square of the distance to the centre of the voxel that begins at a place, less a quarter.
fn middle_square(begin: u64, centre: i64) -> u64
    requires small_place { SmallPlace begin }
    requires ball_centre { BallCentre centre }
    ensures { result ≡ middle_square begin centre }
{
    let before = centre - begin as i64;
    (before * (before - 1)) as u64
}

// The squares along one axis.
fn squares_along(begin: u64, length: u64, centre: i64) -> Squares
    requires small_place { SmallPlace begin }
    requires small_place_2 { SmallPlace length }
    requires ball_centre { BallCentre centre }
    ensures { result ≡ squares_along begin length centre }
{
    let far = farthest(begin, length, centre);
    // The nearest point is nearer by the block's length than the farthest, and the distance 0 within the block.
    let near = far.saturating_sub(length);
    Squares {
        near: near * near,
        far: far * far,
        middle: middle_square(begin, centre),
    }
}

// Those of a block that begins at another place, given those of the one that begins here: the same at the same place.
fn squares_beside(here: u64, squares: Squares, other: u64, length: u64, centre: i64) -> Squares
    requires small_place { SmallPlace other }
    requires small_place_2 { SmallPlace length }
    requires ball_centre { BallCentre centre }
    requires squares_value { squares ≡ squares_along here length centre }
    ensures { result ≡ squares_along other length centre }
{
    if other == here {
        squares
    } else {
        squares_along(other, length, centre)
    }
}

// The radius of ball i, squared.
fn radius_squared(balls: &[i64], i: usize) -> u64
    requires i_bound { i < ball_count balls.now }
    requires small_ball { SmallBall (ball_at balls.now i) }
    ensures { result ≡ radius_squared (ball_at balls.now i) }
{
    let radius = balls[csg::BALL_LENGTH * i + csg::MOST_PLACES] as u64;
    radius * radius
}

// The code of a voxel by the sums of the squares over its block, the radius squared, and whether its centre is inside.
// The nearest point is no farther than the farthest, so that no block is BLACK and WHITE, and the bits are added.
fn code_by(near: u64, far: u64, most: u64, inside: bool) -> u8
    requires { near ≤ far }
    ensures { let mark = tested_code (leb far most) (ltb most near) in
        result ≡ voxel_code mark (tested_code inside true) }
{
    let black = (far <= most) as u8;
    let white = (most < near) as u8;
    black + WHITE_BIT * white + CENTRE_UNIT * tested_code(inside, true)
}

// The codes of ball i over two voxels, with the colours at their centres; so many axes are place axes.
fn codes_of_voxels(
    places: usize,
    balls: &[i64],
    i: usize,
    low: &[u64; Universe::MOST_AXES as usize],
    high: &[u64; Universe::MOST_AXES as usize],
    side: &[u64; Universe::MOST_AXES as usize],
) -> u8
    requires ball_ready { BallReady places balls.now i low.now }
    requires ball_ready_2 { BallReady places balls.now i high.now }
    requires small_places { SmallPlaces side.now }
    ensures { let ball = ball_at balls.now i in
        let side = side.entry.now in
        let below = ball_code true places ball low.now side in
        let above = ball_code true places ball high.now side in
        result ≡ paired below above }
{
    let first = csg::BALL_LENGTH * i;
    let mut near: u64 = 0;
    let mut far: u64 = 0;
    let mut middle: u64 = 0;
    let mut high_near: u64 = 0;
    let mut high_far: u64 = 0;
    let mut high_middle: u64 = 0;
    for axis in 0..places {
        let centre = balls[first + axis];
        let below = squares_along(low[axis], side[axis], centre);
        let above = squares_beside(low[axis], below, high[axis], side[axis], centre);
        near += below.near;
        far += below.far;
        middle += below.middle;
        high_near += above.near;
        high_far += above.far;
        high_middle += above.middle;
    }
    // Four times the square to a centre is one more along each axis than what was added up.
    let most = radius_squared(balls, i);
    let quarters = places as u64;
    let below = code_by(near, far, most, 4 * middle + quarters <= 4 * most);
    let above = code_by(
        high_near,
        high_far,
        most,
        4 * high_middle + quarters <= 4 * most,
    );
    paired(below, above)
}

// Its codes over two blocks with the same sides.
pub(crate) fn codes_of_ball(
    axes: usize,
    balls: &[i64],
    i: usize,
    low: &[u64; Universe::MOST_AXES as usize],
    high: &[u64; Universe::MOST_AXES as usize],
    side: &[u64; Universe::MOST_AXES as usize],
    centre: bool,
) -> u8
    requires least_axes_le_axes { least_axes ≤ axes }
    requires ball_ready { BallReady (axes - 1) balls.now i low.now }
    requires ball_ready_2 { BallReady (axes - 1) balls.now i high.now }
    requires small_places { SmallPlaces side.now }
    ensures { let ball = ball_at balls.now i in
        let side = side.entry.now in
        let below = ball_code centre (axes - 1) ball low.now side in
        let above = ball_code centre (axes - 1) ball high.now side in
        result ≡ paired below above }
{
    let places = axes - 1;
    // Two calls, so that the compiler leaves what is of the centres out of the second.
    if centre {
        codes_of_voxels(places, balls, i, low, high, side)
    } else {
        codes_of_voxels(places, balls, i, low, high, side) % CENTRE_UNIT
    }
}
