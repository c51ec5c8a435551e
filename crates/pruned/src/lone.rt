// One side of a halfspace that is left alone over a block: both halves of every block below are judged by its least and
// greatest value, carried as numbers, and what these move by at each level is worked out before.
ghost use Rattle.std.specs.Prelude.{◌≡◌, ◌+◌, ◌*◌, ◌<◌, length};
ghost use Rattle.universe.specs.Universe.{most_levels};
ghost use Rattle.convert.specs.Shapes.{held_unit, end_limit, symbol_of_bits};
ghost use Rattle.pruned.specs.Nodes.{turned_code};
ghost use Rattle.csg.specs.Halfspace.{row_at};
ghost use Rattle.pruned.specs.Alone.{
  Steps,
  StepsJob,
  LoneBlock,
  LoneBlockLaid,
  LoneHalves,
  LoneHalvesLaid,
  LoneJob,
  LoneLaid,
};

use crate::lay::{HELD_UNIT, join};
use crate::leaf::{FIRST_SIDE, amount, doublings, extremes_code, is_turned, moved_by};
use crate::marks::turned_code;
use crate::prune::{NODE_LENGTH, code_at};
use convert::{BLACK_BIT, WHITE_BIT, symbol_of};
use universe::Universe;

// Sets what the values of a row move by from a block to its halves: for one with n + 1 levels left at place n, from the
// block with these sides down.
fn set_steps(
    rows: &[i64],
    row: usize,
    table: &[usize; Universe::MOST_LEVELS as usize],
    side: &[u64; Universe::MOST_AXES as usize],
    left: u64,
    steps: &mut [i64; Universe::MOST_LEVELS as usize],
)
    requires steps_job { StepsJob rows.now row table.now side.now left }
    requires steps_len { length steps.old ≡ most_levels }
    ensures { let rows = rows.entry.now in
        ((job : StepsJob rows row table.now side.now left)
        → Steps job.universe (row_at rows row) 0 left steps.new) }
{
    let first = csg::ROW_LENGTH * row + 1;
    let mut sides = *side;
    for n in (0..left as usize).rev() {
        let axis = table[n];
        let half = sides[axis] / 2;
        sides[axis] = half;
        steps[n] = amount(rows[first + axis], doublings(half));
    }
}

// The leaf of a block that is judged by one side alone, held back.
pub(crate) fn lone_leaf(turned: bool, bits: u8, at: usize) -> usize
    requires { at + 1 < end_limit }
    ensures { result ≡ (at + 1) * held_unit + symbol_of_bits (turned_code turned bits) }
{
    (at + 1) * HELD_UNIT + symbol_of(turned_code(turned, bits)) as usize
}

// Lays a block over which the side has these values, as `lay_block` does; it is counted already.
#[cycle(lone_block_lone_halves)]
fn lone_block(
    steps: &[i64; Universe::MOST_LEVELS as usize],
    turned: bool,
    merging: bool,
    left: u64,
    least: i64,
    greatest: i64,
    looked: &mut [u64; 1],
    out: &mut [u8],
    at: usize,
) -> usize
    requires { LoneBlock steps.now turned left least greatest looked.old at }
    ensures { let looked₀ = looked.old in
        ((job : LoneBlock steps.now turned left least greatest looked₀ at)
        → LoneBlockLaid job merging out.old result out.new looked.new) }
{
    if left == 0 {
        return lone_leaf(turned, extremes_code(true, least, greatest), at);
    }
    if 0 <= least {
        return lone_leaf(turned, BLACK_BIT, at);
    }
    if greatest <= 0 {
        return lone_leaf(turned, WHITE_BIT, at);
    }
    lone_halves(
        steps, turned, merging, left, least, greatest, looked, out, at,
    )
}

// Counts, judges and lays both halves of a block that is undecided, and joins them.
#[cycle(lone_block_lone_halves)]
fn lone_halves(
    steps: &[i64; Universe::MOST_LEVELS as usize],
    turned: bool,
    merging: bool,
    left: u64,
    least: i64,
    greatest: i64,
    looked: &mut [u64; 1],
    out: &mut [u8],
    at: usize,
) -> usize
    requires { LoneHalves steps.now turned left least greatest looked.old at }
    ensures { let looked₀ = looked.old in
        ((job : LoneHalves steps.now turned left least greatest looked₀ at)
        → LoneHalvesLaid job merging out.old result out.new looked.new) }
{
    let step = steps[(left - 1) as usize];
    looked[0] += 2;
    let lower = moved_by(step, false, least, greatest);
    let below = lone_block(
        steps,
        turned,
        merging,
        left - 1,
        lower.least,
        lower.greatest,
        looked,
        out,
        at + 1,
    );
    let middle = below / HELD_UNIT;
    let upper = moved_by(step, true, least, greatest);
    let above = lone_block(
        steps,
        turned,
        merging,
        left - 1,
        upper.least,
        upper.greatest,
        looked,
        out,
        middle,
    );
    join(
        merging,
        out,
        at,
        (below % HELD_UNIT) as u8,
        middle,
        (above % HELD_UNIT) as u8,
        above / HELD_UNIT,
    )
}

// Lays both halves of an undecided block over which one side of a halfspace is left, whose node stands at `from`.
pub(crate) fn lay_lone(
    rows: &[i64],
    table: &[usize; Universe::MOST_LEVELS as usize],
    side: &[u64; Universe::MOST_AXES as usize],
    left: u64,
    merging: bool,
    work: &[i64],
    from: usize,
    looked: &mut [u64; 1],
    out: &mut [u8],
    at: usize,
) -> usize
    requires { LoneJob rows.now table.now side.now left work.now from looked.old at }
    ensures { let table₀ = table.now in
        let side₀ = side.now in
        let work₀ = work.now in
        let looked₀ = looked.old in
        ((job : LoneJob rows.now table₀ side₀ left work₀ from looked₀ at)
        → LoneLaid job merging out.old result out.new looked.new) }
{
    let code = code_at(work, from);
    let least = work[NODE_LENGTH * from + 1];
    let greatest = work[NODE_LENGTH * from + 2];
    let row = ((code - FIRST_SIDE) / 2) as usize;
    let mut steps = [0i64; Universe::MOST_LEVELS as usize];
    set_steps(rows, row, table, side, left, &mut steps);
    lone_halves(
        &steps,
        is_turned(code),
        merging,
        left,
        least,
        greatest,
        looked,
        out,
        at,
    )
}
