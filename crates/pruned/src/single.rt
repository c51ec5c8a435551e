// One side of a surface that is left alone over a block, of a halfspace or of a ball: each has a way of its own below.
ghost use Rattle.std.specs.Prelude.{◌≡◌, true, ◌*◌, ◌≤◌, nat_abs};
ghost use Rattle.csg.specs.Surfaces.{surfaces_of};
ghost use Rattle.pruned.specs.Nodes.{node_length, number_at, CodeAt};
ghost use Rattle.pruned.specs.Single.{first_side, SingleJob, SingleLaid};

use crate::leaf::{FIRST_BALL_SIDE, FIRST_SIDE};
use crate::lone::lay_lone;
use crate::prune::code_at;
use crate::round::lay_lone_ball;
use universe::Universe;

// Whether the nodes from a place on are one, and a side of a surface.
pub(crate) fn is_single(work: &[i64], from: usize, count: usize) -> bool
    requires { count ≡ 1 → CodeAt work.now from }
    ensures { let code = nat_abs (number_at work.now (node_length * from)) in
        (result ≡ true → (count ≡ 1) × (first_side ≤ code)) }
{
    count == 1 && FIRST_SIDE <= code_at(work, from)
}

// Lays both halves of an undecided block over which one side of a surface is left, whose node stands at `from`.
pub(crate) fn lay_single(
    axes: usize,
    rows: &[i64],
    balls: &[i64],
    table: &[usize; Universe::MOST_LEVELS as usize],
    low: &mut [u64; Universe::MOST_AXES as usize],
    side: &mut [u64; Universe::MOST_AXES as usize],
    left: u64,
    merging: bool,
    work: &[i64],
    from: usize,
    looked: &mut [u64; 1],
    out: &mut [u8],
    at: usize,
) -> usize
    requires { let surfaces = surfaces_of rows.now balls.now in
        SingleJob surfaces axes table.now low.old side.old left work.now from looked.old at }
    ensures { let surfaces = surfaces_of rows.now balls.now in
        let low₀ = low.old in
        let side₀ = side.old in
        let work₀ = work.now in
        let looked₀ = looked.old in
        ((job : SingleJob surfaces axes table.now low₀ side₀ left work₀ from looked₀ at)
        → SingleLaid job merging out.old result out.new looked.new low.new
        side.new) }
{
    let code = code_at(work, from);
    if code < FIRST_BALL_SIDE {
        return lay_lone(
            rows, table, side, left, merging, work, from, looked, out, at,
        );
    }
    lay_lone_ball(
        axes, balls, table, low, side, left, merging, work, from, looked, out, at,
    )
}
