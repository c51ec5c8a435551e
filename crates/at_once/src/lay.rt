// The recursion over blocks that lays the merged expression of what is carried, by the colours of blocks.
ghost use Rattle.std.specs.Prelude.{◌≡◌, true, ◌+◌, ◌≤◌, ◌<◌};
ghost use Rattle.csg.specs.Surfaces.{surfaces_of};
ghost use Rattle.convert.specs.Shapes.{end_limit};
ghost use Rattle.pruned.specs.Nodes.{Shelves};
ghost use Rattle.pruned.specs.Laying.{joined_packed, joined_out};
ghost use Rattle.at_once.specs.Words.{word_levels};
ghost use Rattle.at_once.specs.Both.{BothShelves};
ghost use Rattle.at_once.specs.Counting.{BlockJob, PutBack};
ghost use Rattle.at_once.specs.Moves.{RightValues, ValuesAt, Unmoved};
ghost use Rattle.at_once.specs.Merged.{shape_over, LaidShape, AtPlace};

use crate::both::both_words;
use crate::digits::WORD_LEVELS;
use crate::moves::move_values;
use crate::prune::{MOST_SHAPES, prune};
use crate::text::{HELD_UNIT, lay_word};
use crate::word::trees_word;
use convert::symbol_of;
use universe::Universe;

// Joins two halves that are laid behind the place of their `(`, and packs what they come to: leaves of one colour are
// held back as one.
fn join(out: &mut [u8], at: usize, below: u8, middle: usize, above: u8, end: usize) -> usize
    requires at_bound { at + 1 < end_limit }
    requires end_lt_end_limit { end < end_limit }
    ensures value { result ≡ joined_packed true at below above end }
    ensures out_after { out.new ≡ joined_out true out.old at below middle above }
{
    if bintree::is_alike(below, above) {
        return (at + 1) * HELD_UNIT + below as usize;
    }
    bintree::join_halves(out, at, below, middle, above);
    end * HELD_UNIT
}

// Lays the merged shape of a block both of whose halves have the levels of a word: their words are made by one pass
// over the codes, and their texts are joined.
fn lay_words(
    axes: usize,
    rows: &[i64],
    balls: &[i64],
    table: &[usize; Universe::MOST_LEVELS as usize],
    lengths: &[u64; WORD_LEVELS],
    low: &[u64; Universe::MOST_AXES as usize],
    side: &[u64; Universe::MOST_AXES as usize],
    codes: &[u16],
    from: usize,
    count: usize,
    belows: &mut [u64; MOST_SHAPES],
    aboves: &mut [u64; MOST_SHAPES],
    out: &mut [u8],
    at: usize,
    values: &[i64; csg::MOST_ROWS],
) -> usize
    requires fact { let surfaces = surfaces_of rows.now balls.now in
        let left = word_levels + 1 in
        BlockJob surfaces axes table.now lengths.now low.now side.now left codes.now from count left }
    requires at_place { AtPlace (word_levels + 1) at }
    requires both_shelves { BothShelves belows.old aboves.old }
    requires right_values { RightValues rows.now low.now codes.now from count values.now }
    ensures fact_2 { let surfaces = surfaces_of rows.now balls.now in
        let left = word_levels + 1 in
        ((job : BlockJob surfaces axes table.now lengths.now low.now
        side.now left codes.now from count left)
        → LaidShape (shape_over job) out.old at result out.new) }
    ensures both_shelves_2 { BothShelves belows.new aboves.new }
{
    let left = WORD_LEVELS as u64;
    let axis = table[WORD_LEVELS];
    let half = side[axis] / 2;
    let words = both_words(
        axes, rows, balls, table, lengths, low, axis, half, codes, from, count, belows, aboves,
        values,
    );
    let below = lay_word(words.below, left, out, at + 1);
    let middle = below / HELD_UNIT;
    let above = lay_word(words.above, left, out, middle);
    join(
        out,
        at,
        (below % HELD_UNIT) as u8,
        middle,
        (above % HELD_UNIT) as u8,
        above / HELD_UNIT,
    )
}

// Lays the merged shape of a block from `at` on, as far as there is room; a leaf is held back. The codes of what is
// carried into it stay.
#[cycle(lay_block_lay_halves)]
pub(crate) fn lay_block(
    axes: usize,
    rows: &[i64],
    balls: &[i64],
    table: &[usize; Universe::MOST_LEVELS as usize],
    lengths: &[u64; WORD_LEVELS],
    low: &mut [u64; Universe::MOST_AXES as usize],
    side: &mut [u64; Universe::MOST_AXES as usize],
    left: u64,
    codes: &mut [u16],
    from: usize,
    count: usize,
    starts: &mut [usize; MOST_SHAPES],
    marks: &mut [u8; MOST_SHAPES],
    belows: &mut [u64; MOST_SHAPES],
    aboves: &mut [u64; MOST_SHAPES],
    out: &mut [u8],
    at: usize,
    values: &mut [i64; csg::MOST_ROWS],
    rounds: &mut [u8; csg::MOST_ROWS],
    round: u8,
) -> usize
    requires fact { let surfaces = surfaces_of rows.now balls.now in
        BlockJob surfaces axes table.now lengths.now low.old side.old left codes.old from count
        (left + 1) }
    requires shelves { Shelves starts.old marks.old }
    requires at_place { AtPlace left at }
    requires both_shelves { BothShelves belows.old aboves.old }
    requires values_at { ValuesAt rows.now low.old codes.old from count values.old rounds.old round }
    ensures fact_2 { let surfaces = surfaces_of rows.now balls.now in
        ((job : BlockJob surfaces axes table.now lengths.now low.old
        side.old left codes.old from count (left + 1))
        → LaidShape (shape_over job) out.old at result out.new) }
    ensures put_back { PutBack (from + count) low.old side.old codes.old
        low.new side.new codes.new }
    ensures shelves_2 { Shelves starts.new marks.new }
    ensures both_shelves_2 { BothShelves belows.new aboves.new }
    ensures unmoved { Unmoved values.old rounds.old values.new rounds.new }
{
    if left <= WORD_LEVELS as u64 {
        let word = trees_word(
            axes, rows, balls, table, lengths, low, left, codes, from, count, values,
        );
        return lay_word(word, left, out, at);
    }
    let kept = prune(
        axes, rows, balls, low, side, codes, from, count, starts, marks, values,
    );
    let mark = kept.mark;
    let nodes = kept.nodes;
    if mark != 0 {
        return (at + 1) * HELD_UNIT + symbol_of(mark) as usize;
    }
    lay_halves(
        axes,
        rows,
        balls,
        table,
        lengths,
        low,
        side,
        left,
        codes,
        from + count,
        nodes,
        starts,
        marks,
        belows,
        aboves,
        out,
        at,
        values,
        rounds,
        round,
    )
}

// The same of a block by both its halves, which are laid and joined; where they have the levels of a word, at once.
#[cycle(lay_block_lay_halves)]
fn lay_halves(
    axes: usize,
    rows: &[i64],
    balls: &[i64],
    table: &[usize; Universe::MOST_LEVELS as usize],
    lengths: &[u64; WORD_LEVELS],
    low: &mut [u64; Universe::MOST_AXES as usize],
    side: &mut [u64; Universe::MOST_AXES as usize],
    left: u64,
    codes: &mut [u16],
    from: usize,
    count: usize,
    starts: &mut [usize; MOST_SHAPES],
    marks: &mut [u8; MOST_SHAPES],
    belows: &mut [u64; MOST_SHAPES],
    aboves: &mut [u64; MOST_SHAPES],
    out: &mut [u8],
    at: usize,
    values: &mut [i64; csg::MOST_ROWS],
    rounds: &mut [u8; csg::MOST_ROWS],
    round: u8,
) -> usize
    requires fact { let surfaces = surfaces_of rows.now balls.now in
        BlockJob surfaces axes table.now lengths.now low.old side.old left codes.old from count left }
    requires le_left { 1 ≤ left }
    requires shelves { Shelves starts.old marks.old }
    requires at_place { AtPlace left at }
    requires both_shelves { BothShelves belows.old aboves.old }
    requires values_at { ValuesAt rows.now low.old codes.old from count values.old rounds.old round }
    ensures fact_2 { let surfaces = surfaces_of rows.now balls.now in
        ((job : BlockJob surfaces axes table.now lengths.now low.old
        side.old left codes.old from count left)
        → LaidShape (shape_over job) out.old at result out.new) }
    ensures put_back { PutBack (from + count) low.old side.old codes.old
        low.new side.new codes.new }
    ensures shelves_2 { Shelves starts.new marks.new }
    ensures both_shelves_2 { BothShelves belows.new aboves.new }
    ensures unmoved { Unmoved values.old rounds.old values.new rounds.new }
{
    if left == WORD_LEVELS as u64 + 1 {
        return lay_words(
            axes, rows, balls, table, lengths, low, side, codes, from, count, belows, aboves, out,
            at, values,
        );
    }
    let axis = table[(left - 1) as usize];
    let near = low[axis];
    let whole = side[axis];
    let half = whole / 2;
    side[axis] = half;
    let below = lay_block(
        axes,
        rows,
        balls,
        table,
        lengths,
        low,
        side,
        left - 1,
        codes,
        from,
        count,
        starts,
        marks,
        belows,
        aboves,
        out,
        at + 1,
        values,
        rounds,
        round,
    );
    let middle = below / HELD_UNIT;
    low[axis] = near + half;
    move_values(
        true, rows, axis, half, codes, from, count, values, rounds, round,
    );
    let above = lay_block(
        axes,
        rows,
        balls,
        table,
        lengths,
        low,
        side,
        left - 1,
        codes,
        from,
        count,
        starts,
        marks,
        belows,
        aboves,
        out,
        middle,
        values,
        rounds,
        1 - round,
    );
    low[axis] = near;
    side[axis] = whole;
    move_values(
        false,
        rows,
        axis,
        half,
        codes,
        from,
        count,
        values,
        rounds,
        1 - round,
    );
    join(
        out,
        at,
        (below % HELD_UNIT) as u8,
        middle,
        (above % HELD_UNIT) as u8,
        above / HELD_UNIT,
    )
}
