// One side of a ball that is left alone over a block: every block below is judged by the ball alone, and nothing is
// pruned.
ghost use Rattle.pruned.specs.Round.{
  BallBlock,
  BallBlockLaid,
  BallHalves,
  BallHalvesLaid,
  BallJob,
  BallLaid,
};

use crate::ball::{code_at_voxel, code_over_block};
use crate::lay::{HELD_UNIT, join};
use crate::leaf::{FIRST_BALL_SIDE, is_turned};
use crate::lone::lone_leaf;
use crate::prune::code_at;
use universe::Universe;

// Lays a block judged by a side of ball i, as `lay_block` does; it is counted already.
#[cycle(ball_block_ball_halves)]
fn ball_block(
    places: usize,
    balls: &[i64],
    i: usize,
    turned: bool,
    table: &[usize; Universe::MOST_LEVELS as usize],
    low: &mut [u64; Universe::MOST_AXES as usize],
    side: &mut [u64; Universe::MOST_AXES as usize],
    left: u64,
    merging: bool,
    looked: &mut [u64; 1],
    out: &mut [u8],
    at: usize,
) -> usize
    requires { BallBlock places balls.now i turned table.now low.old side.old left looked.old at }
    ensures { let balls₀ = balls.now in
        let table₀ = table.now in
        let low₀ = low.old in
        let side₀ = side.old in
        let looked₀ = looked.old in
        ((job : BallBlock places balls₀ i turned table₀ low₀ side₀ left looked₀ at)
        → BallBlockLaid job merging out.old result out.new looked.new low.new
        side.new) }
{
    if left == 0 {
        return lone_leaf(turned, code_at_voxel(places, balls, i, low), at);
    }
    let bits = code_over_block(places, balls, i, low, side);
    if bits != 0 {
        return lone_leaf(turned, bits, at);
    }
    ball_halves(
        places, balls, i, turned, table, low, side, left, merging, looked, out, at,
    )
}

// Counts, judges and lays both halves of a block that is undecided, and joins them.
#[cycle(ball_block_ball_halves)]
fn ball_halves(
    places: usize,
    balls: &[i64],
    i: usize,
    turned: bool,
    table: &[usize; Universe::MOST_LEVELS as usize],
    low: &mut [u64; Universe::MOST_AXES as usize],
    side: &mut [u64; Universe::MOST_AXES as usize],
    left: u64,
    merging: bool,
    looked: &mut [u64; 1],
    out: &mut [u8],
    at: usize,
) -> usize
    requires { BallHalves places balls.now i turned table.now low.old side.old left looked.old at }
    ensures { let balls₀ = balls.now in
        let table₀ = table.now in
        let low₀ = low.old in
        let side₀ = side.old in
        let looked₀ = looked.old in
        ((job : BallHalves places balls₀ i turned table₀ low₀ side₀ left looked₀ at)
        → BallHalvesLaid job merging out.old result out.new looked.new low.new
        side.new) }
{
    let axis = table[(left - 1) as usize];
    let near = low[axis];
    let whole = side[axis];
    let half = whole / 2;
    looked[0] += 2;
    side[axis] = half;
    let below = ball_block(
        places,
        balls,
        i,
        turned,
        table,
        low,
        side,
        left - 1,
        merging,
        looked,
        out,
        at + 1,
    );
    let middle = below / HELD_UNIT;
    low[axis] = near + half;
    let above = ball_block(
        places,
        balls,
        i,
        turned,
        table,
        low,
        side,
        left - 1,
        merging,
        looked,
        out,
        middle,
    );
    low[axis] = near;
    side[axis] = whole;
    join(
        merging,
        out,
        at,
        (below % HELD_UNIT) as u8,
        middle,
        (above % HELD_UNIT) as u8,
        above / HELD_UNIT,
    )
}

// Lays both halves of an undecided block over which one side of a ball is left, whose node stands at `from`.
pub(crate) fn lay_lone_ball(
    axes: usize,
    balls: &[i64],
    table: &[usize; Universe::MOST_LEVELS as usize],
    low: &mut [u64; Universe::MOST_AXES as usize],
    side: &mut [u64; Universe::MOST_AXES as usize],
    left: u64,
    merging: bool,
    work: &[i64],
    from: usize,
    looked: &mut [u64; 1],
    out: &mut [u8],
    at: usize,
) -> usize
    requires { BallJob axes balls.now table.now low.old side.old left work.now from looked.old at }
    ensures { let table₀ = table.now in
        let low₀ = low.old in
        let side₀ = side.old in
        let work₀ = work.now in
        let looked₀ = looked.old in
        ((job : BallJob axes balls.now table₀ low₀ side₀ left work₀ from looked₀ at)
        → BallLaid job merging out.old result out.new looked.new low.new
        side.new) }
{
    let code = code_at(work, from);
    let ball = ((code - FIRST_BALL_SIDE) / 2) as usize;
    ball_halves(
        axes - 1,
        balls,
        ball,
        is_turned(code),
        table,
        low,
        side,
        left,
        merging,
        looked,
        out,
        at,
    )
}
