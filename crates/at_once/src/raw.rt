// The recursion over blocks that writes the raw expression of what is carried, whose codes are judged afresh over each
// block.
ghost use Rattle.std.specs.Prelude.{◌≡◌, ◌+◌, ◌≤◌};
ghost use Rattle.csg.specs.Surfaces.{surfaces_of};
ghost use Rattle.pruned.specs.Nodes.{Shelves};
ghost use Rattle.at_once.specs.Counting.{BlockJob, PutBack};
ghost use Rattle.at_once.specs.Moves.{ValuesAt, Unmoved};
ghost use Rattle.at_once.specs.Merged.{AtPlace};
ghost use Rattle.at_once.specs.Raw.{raw_over, raw_halves, WrittenShape};

use crate::digits::WORD_LEVELS;
use crate::moves::move_values;
use crate::prune::{MOST_SHAPES, prune};
use crate::voxel::trees_digit;
use convert::symbol_of;
use universe::Universe;

// No level is left of a block that is a voxel.
const OF_A_VOXEL: u64 = 0;

// Writes the raw shape of a block from `at` on, as far as there is room, and gives the place past it. The codes of what
// is carried into it stay.
#[cycle(raw_block_raw_halves)]
pub(crate) fn raw_block(
    axes: usize,
    rows: &[i64],
    balls: &[i64],
    table: &[usize; Universe::MOST_LEVELS as usize],
    lengths: &[u64; WORD_LEVELS],
    low: &mut [u64; Universe::MOST_AXES as usize],
    side: &mut [u64; Universe::MOST_AXES as usize],
    left: u64,
    codes: &mut [u16],
    from: usize,
    count: usize,
    starts: &mut [usize; MOST_SHAPES],
    marks: &mut [u8; MOST_SHAPES],
    out: &mut [u8],
    at: usize,
    values: &mut [i64; csg::MOST_ROWS],
    rounds: &mut [u8; csg::MOST_ROWS],
    round: u8,
) -> usize
    requires fact { let surfaces = surfaces_of rows.now balls.now in
        BlockJob surfaces axes table.now lengths.now low.old side.old left codes.old from count
        (left + 1) }
    requires shelves { Shelves starts.old marks.old }
    requires at_place { AtPlace left at }
    requires values_at { ValuesAt rows.now low.old codes.old from count values.old rounds.old round }
    ensures fact_2 { let surfaces = surfaces_of rows.now balls.now in
        ((job : BlockJob surfaces axes table.now lengths.now low.old
        side.old left codes.old from count (left + 1))
        → WrittenShape (raw_over job) out.old at result out.new) }
    ensures put_back { PutBack (from + count) low.old side.old codes.old
        low.new side.new codes.new }
    ensures shelves_2 { Shelves starts.new marks.new }
    ensures unmoved { Unmoved values.old rounds.old values.new rounds.new }
{
    if left == OF_A_VOXEL {
        let digit = trees_digit(axes, rows, balls, low, codes, from, count, marks, values);
        bintree::note(out, at, symbol_of(digit));
        return at + 1;
    }
    let kept = prune(
        axes, rows, balls, low, side, codes, from, count, starts, marks, values,
    );
    let mark = kept.mark;
    let nodes = kept.nodes;
    if mark != 0 {
        bintree::note(out, at, symbol_of(mark));
        return at + 1;
    }
    raw_halves(
        axes,
        rows,
        balls,
        table,
        lengths,
        low,
        side,
        left,
        codes,
        from + count,
        nodes,
        starts,
        marks,
        out,
        at,
        values,
        rounds,
        round,
    )
}

// The same of a block by both its halves, which are written behind their `(`, one behind the other.
#[cycle(raw_block_raw_halves)]
fn raw_halves(
    axes: usize,
    rows: &[i64],
    balls: &[i64],
    table: &[usize; Universe::MOST_LEVELS as usize],
    lengths: &[u64; WORD_LEVELS],
    low: &mut [u64; Universe::MOST_AXES as usize],
    side: &mut [u64; Universe::MOST_AXES as usize],
    left: u64,
    codes: &mut [u16],
    from: usize,
    count: usize,
    starts: &mut [usize; MOST_SHAPES],
    marks: &mut [u8; MOST_SHAPES],
    out: &mut [u8],
    at: usize,
    values: &mut [i64; csg::MOST_ROWS],
    rounds: &mut [u8; csg::MOST_ROWS],
    round: u8,
) -> usize
    requires fact { let surfaces = surfaces_of rows.now balls.now in
        BlockJob surfaces axes table.now lengths.now low.old side.old left codes.old from count
        left }
    requires le_left { 1 ≤ left }
    requires shelves { Shelves starts.old marks.old }
    requires at_place { AtPlace left at }
    requires values_at { ValuesAt rows.now low.old codes.old from count values.old rounds.old round }
    ensures fact_2 { let surfaces = surfaces_of rows.now balls.now in
        ((job : BlockJob surfaces axes table.now lengths.now low.old
        side.old left codes.old from count left)
        → WrittenShape (raw_halves job) out.old at result out.new) }
    ensures put_back { PutBack (from + count) low.old side.old codes.old
        low.new side.new codes.new }
    ensures shelves_2 { Shelves starts.new marks.new }
    ensures unmoved { Unmoved values.old rounds.old values.new rounds.new }
{
    bintree::note(out, at, b'(');
    let axis = table[(left - 1) as usize];
    let near = low[axis];
    let whole = side[axis];
    let half = whole / 2;
    side[axis] = half;
    let middle = raw_block(
        axes,
        rows,
        balls,
        table,
        lengths,
        low,
        side,
        left - 1,
        codes,
        from,
        count,
        starts,
        marks,
        out,
        at + 1,
        values,
        rounds,
        round,
    );
    low[axis] = near + half;
    move_values(
        true, rows, axis, half, codes, from, count, values, rounds, round,
    );
    let end = raw_block(
        axes,
        rows,
        balls,
        table,
        lengths,
        low,
        side,
        left - 1,
        codes,
        from,
        count,
        starts,
        marks,
        out,
        middle,
        values,
        rounds,
        1 - round,
    );
    low[axis] = near;
    side[axis] = whole;
    move_values(
        false,
        rows,
        axis,
        half,
        codes,
        from,
        count,
        values,
        rounds,
        1 - round,
    );
    end
}
