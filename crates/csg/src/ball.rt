// Balls: whether numbers are balls of a universe.
ghost use Rattle.std.specs.Prelude.{◌≡◌, ◌+◌, ◌*◌, ◌≤◌, ◌<◌, leb, nat_abs, length};
ghost use Rattle.lemmas.specs.Sums.{every};
ghost use Rattle.csg.specs.Ball.{most_places, ball_length, ball_count, ball_at, centre_limit_along};
ghost use Rattle.csg.specs.Ball.{radius_within, ball_within, balls_refusal};
ghost use Rattle.universe.specs.Told.{number_told};

use universe::{Refusal, Universe};

// How many place axes there are at the most (rule 2.6).
pub const MOST_PLACES: usize = (Universe::MOST_AXES - 1) as usize;

// How many balls there may be, and the numbers of each: its centre's, and the radius behind them (rule 2.10).
pub const MOST_BALLS: usize = 64;

pub const BALL_LENGTH: usize = MOST_PLACES + 1;

// Whether a radius is within its limits.
fn radius_within(value: i64) -> bool
    ensures { result ≡ radius_within value }
{
    (0..=Universe::RADIUS_LIMIT).contains(&value)
}

// Whether the centre's number along an axis is within its limit, which is 0 for an axis that is no place axis.
fn centre_within(universe: Universe, axis: u64, value: i64) -> bool
    requires { axis < most_places }
    ensures { result ≡ leb (nat_abs value) (centre_limit_along universe axis) }
{
    if universe.axes <= axis + 1 {
        return value == 0;
    }
    (-Universe::CENTRE_LIMIT..=Universe::CENTRE_LIMIT).contains(&value)
}

// Whether a ball is within the limits.
fn ball_within(universe: Universe, ball: &[i64]) -> bool
    requires { length ball.now ≡ ball_length }
    ensures { result ≡ ball_within universe (ball_at ball.now 0) }
{
    if !radius_within(ball[MOST_PLACES]) {
        return false;
    }
    (0..MOST_PLACES as u64).all(|axis| centre_within(universe, axis, ball[axis as usize]))
}

// Whether all whole balls are within the limits.
fn balls_within(universe: Universe, balls: &[i64]) -> bool
    ensures { result
        ≡ every (ball_count balls.now) (λ i. ball_within universe (ball_at balls.now i)) }
{
    balls
        .chunks_exact(BALL_LENGTH)
        .all(|ball| ball_within(universe, ball))
}

// Refused where a ball is not whole, or there are too many balls, or one is outside a limit of the universe.
#[tactic(auto, unfolding(crate::specs::Ball::balls_refusal))]
pub fn check_balls(universe: Universe, balls: &[i64]) -> Result<(), Refusal>
    ensures { number_told result ≡ balls_refusal universe balls.now }
{
    if balls.len() % BALL_LENGTH != 0
        || MOST_BALLS < balls.len() / BALL_LENGTH
        || !balls_within(universe, balls)
    {
        return Err(Refusal::BadRows);
    }
    Ok(())
}
