// The recursion over blocks, which lays the raw or the merged expression of what is carried.
ghost use Rattle.std.specs.Prelude.{◌≡◌, ◌+◌, ◌<◌, ◌≤◌};
ghost use Rattle.csg.specs.Surfaces.{surfaces_of};
ghost use Rattle.convert.specs.Shapes.{end_limit};
ghost use Rattle.pruned.specs.Nodes.{doubled, Shelves};
ghost use Rattle.pruned.specs.Laying.{joined_packed, joined_out, BlockJob, BlockLaid, HalvesJob, HalvesLaid};

use crate::leaf::doublings;
use crate::pair::lay_pair;
use crate::prune::{MOST_SHAPES, prune};
use crate::single::{is_single, lay_single};
use convert::{is_one, symbol_of};
use universe::Universe;

// What the place past a shape is multiplied by where it is packed.
pub(crate) const HELD_UNIT: usize = 256;

// Joins two halves that are laid behind the place of their `(`, and packs what they come to.
pub(crate) fn join(
    merging: bool,
    out: &mut [u8],
    at: usize,
    below: u8,
    middle: usize,
    above: u8,
    end: usize,
) -> usize
    requires at_bound { at + 1 < end_limit }
    requires end_lt_end_limit { end < end_limit }
    ensures value { result ≡ joined_packed merging at below above end }
    ensures out_after { out.new ≡ joined_out merging out.old at below middle above }
{
    if is_one(merging, below, above) {
        return (at + 1) * HELD_UNIT + below as usize;
    }
    bintree::join_halves(out, at, below, middle, above);
    end * HELD_UNIT
}

// Lays the shape of a block, merged or as it is, from `at` on, as far as there is room; a leaf is held back. The nodes
// that are carried into the block stand from `from` on, with their values over its parent; they are counted, and stay.
// `merging` is an argument: of functions with a const parameter that call each other no answer to what a call asks
// counts as a proof.
#[cycle(lay_block_lay_halves)]
fn lay_block(
    axes: usize,
    rows: &[i64],
    balls: &[i64],
    table: &[usize; Universe::MOST_LEVELS as usize],
    low: &mut [u64; Universe::MOST_AXES as usize],
    side: &mut [u64; Universe::MOST_AXES as usize],
    axis: usize,
    high: bool,
    times: u64,
    left: u64,
    merging: bool,
    work: &mut [i64],
    from: usize,
    count: usize,
    starts: &mut [usize; MOST_SHAPES],
    codes: &mut [u8; MOST_SHAPES],
    looked: &mut [u64; 1],
    out: &mut [u8],
    at: usize,
) -> usize
    requires fact { let surfaces = surfaces_of rows.now balls.now in
        BlockJob surfaces axes table.now low.old side.old axis (doubled times) high left work.old from count
        (from + count) looked.old at }
    requires shelves { Shelves starts.old codes.old }
    ensures fact_2 { let surfaces = surfaces_of rows.now balls.now in
        let low₀ = low.old in
        let side₀ = side.old in
        let work₀ = work.old in
        let looked₀ = looked.old in
        ((job : BlockJob surfaces axes table.now low₀ side₀ axis (doubled times) high left work₀ from
        count (from + count) looked₀ at)
        → BlockLaid job merging out.old result out.new looked.new low.new
        side.new work.new) }
    ensures shelves_2 { Shelves starts.new codes.new }
{
    let behind = from + count;
    let kept = prune(
        axes,
        rows,
        balls,
        low,
        side,
        axis,
        high,
        times,
        left == 0,
        work,
        from,
        count,
        behind,
        starts,
        codes,
    );
    let mark = kept.mark;
    let nodes = kept.nodes;
    looked[0] += count as u64;
    if mark != 0 {
        return (at + 1) * HELD_UNIT + symbol_of(mark) as usize;
    }
    if is_single(work, behind, nodes) {
        return lay_single(
            axes, rows, balls, table, low, side, left, merging, work, behind, looked, out, at,
        );
    }
    lay_halves(
        axes, rows, balls, table, low, side, left, merging, work, behind, nodes, starts, codes,
        looked, out, at,
    )
}

// The same of a block that is undecided: both halves are laid, and joined, two voxels at once. What is left of the
// trees over the block stands from `from` on, with the values over the block.
#[cycle(lay_block_lay_halves)]
pub(crate) fn lay_halves(
    axes: usize,
    rows: &[i64],
    balls: &[i64],
    table: &[usize; Universe::MOST_LEVELS as usize],
    low: &mut [u64; Universe::MOST_AXES as usize],
    side: &mut [u64; Universe::MOST_AXES as usize],
    left: u64,
    merging: bool,
    work: &mut [i64],
    from: usize,
    count: usize,
    starts: &mut [usize; MOST_SHAPES],
    codes: &mut [u8; MOST_SHAPES],
    looked: &mut [u64; 1],
    out: &mut [u8],
    at: usize,
) -> usize
    requires fact { let surfaces = surfaces_of rows.now balls.now in
        HalvesJob surfaces axes table.now low.old side.old left work.old from count looked.old at }
    requires shelves { Shelves starts.old codes.old }
    ensures fact_2 { let surfaces = surfaces_of rows.now balls.now in
        let low₀ = low.old in
        let side₀ = side.old in
        let work₀ = work.old in
        let looked₀ = looked.old in
        ((job : HalvesJob surfaces axes table.now low₀ side₀ left work₀ from count looked₀ at)
        → HalvesLaid job merging out.old result out.new looked.new low.new
        side.new work.new) }
    ensures shelves_2 { Shelves starts.new codes.new }
{
    let axis = table[(left - 1) as usize];
    if left == 1 {
        return lay_pair(
            axes, rows, balls, low, axis, merging, work, from, count, codes, looked, out, at,
        );
    }
    let near = low[axis];
    let whole = side[axis];
    let half = whole / 2;
    let times = doublings(half);
    side[axis] = half;
    let below = lay_block(
        axes,
        rows,
        balls,
        table,
        low,
        side,
        axis,
        false,
        times,
        left - 1,
        merging,
        work,
        from,
        count,
        starts,
        codes,
        looked,
        out,
        at + 1,
    );
    let middle = below / HELD_UNIT;
    low[axis] = near + half;
    let above = lay_block(
        axes,
        rows,
        balls,
        table,
        low,
        side,
        axis,
        true,
        times,
        left - 1,
        merging,
        work,
        from,
        count,
        starts,
        codes,
        looked,
        out,
        middle,
    );
    low[axis] = near;
    side[axis] = whole;
    join(
        merging,
        out,
        at,
        (below % HELD_UNIT) as u8,
        middle,
        (above % HELD_UNIT) as u8,
        above / HELD_UNIT,
    )
}
