// A ball over a block: the squares of its distances along the place axes, added up, against the radius squared.
ghost use Rattle.std.specs.Prelude.{◌≡◌, ◌<◌};
ghost use Rattle.csg.specs.Ball.{ball_count, ball_at, gap, nearest, farthest, radius_squared};
ghost use Rattle.convert.specs.Codes.{ball_code_over};
ghost use Rattle.convert.specs.Small.{SmallPlaces, SmallBall, BallReady};
ghost use Rattle.pruned.specs.Balls.{BallPlace, DoubledCentre};

use convert::tested_code;
use universe::Universe;

// How far a place and a number of a centre are apart. This, `nearest`, `farthest` and `radius_squared` ask that the
// numbers are small, and no public function asks anything: crate `pruned` has its own.
fn apart(place: u64, centre: i64) -> u64
    requires ball_place { BallPlace place }
    requires doubled_centre { DoubledCentre centre }
    ensures { result ≡ gap place centre }
{
    (place as i64 - centre).unsigned_abs()
}

// How far the nearest point between two places is.
#[tactic(auto, unfolding(csg::specs::Ball::nearest))]
fn nearest(low: u64, high: u64, centre: i64) -> u64
    requires ball_place { BallPlace low }
    requires ball_place_2 { BallPlace high }
    requires doubled_centre { DoubledCentre centre }
    ensures { result ≡ nearest low high centre }
{
    if centre < low as i64 {
        return apart(low, centre);
    }
    if (high as i64) < centre {
        return apart(high, centre);
    }
    0
}

// How far the farther of two places is.
#[tactic(auto, unfolding(csg::specs::Ball::farthest))]
fn farthest(low: u64, high: u64, centre: i64) -> u64
    requires ball_place { BallPlace low }
    requires ball_place_2 { BallPlace high }
    requires doubled_centre { DoubledCentre centre }
    ensures { result ≡ farthest low high centre }
{
    apart(low, centre).max(apart(high, centre))
}

// The radius of ball i, squared.
#[tactic(auto, unfolding(csg::specs::Ball::radius_squared))]
fn radius_squared(balls: &[i64], i: usize) -> u64
    requires i_bound { i < ball_count balls.now }
    requires small_ball { SmallBall (ball_at balls.now i) }
    ensures { result ≡ radius_squared (ball_at balls.now i) }
{
    let radius = balls[csg::BALL_LENGTH * i + csg::MOST_PLACES] as u64;
    radius * radius
}

// The code of ball i over the block with these low places and sides, of which so many are along place axes.
pub(crate) fn code_of_ball(
    places: usize,
    balls: &[i64],
    i: usize,
    low: &[u64; Universe::MOST_AXES as usize],
    side: &[u64; Universe::MOST_AXES as usize],
) -> u8
    requires ball_ready { BallReady places balls.now i low.now }
    requires small_places { SmallPlaces side.now }
    ensures { let ball = ball_at balls.now i in
        result ≡ ball_code_over places ball low.now side.now }
{
    let first = csg::BALL_LENGTH * i;
    let mut near: u64 = 0;
    let mut far: u64 = 0;
    for axis in 0..places {
        let begin = low[axis];
        let end = begin + side[axis];
        let centre = balls[first + axis];
        let nearer = nearest(begin, end, centre);
        let farther = farthest(begin, end, centre);
        near += nearer * nearer;
        far += farther * farther;
    }
    let most = radius_squared(balls, i);
    tested_code(far <= most, most < near)
}
