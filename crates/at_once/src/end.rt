// The recursion over blocks that betters a frame by the black voxels of a window: branch and bound. The last frame is
// sought where `backward`, else the first.
ghost use Rattle.std.specs.Prelude.{◌≡◌, cond, ◌+◌, ◌≤◌};
ghost use Rattle.csg.specs.Surfaces.{surfaces_of};
ghost use Rattle.pruned.specs.Nodes.{Shelves};
ghost use Rattle.masks.specs.Ends.{better};
ghost use Rattle.at_once.specs.Both.{BothShelves};
ghost use Rattle.at_once.specs.Counting.{end_over, BlockJob, WordOver, PutBack};
ghost use Rattle.at_once.specs.Moves.{RightValues, ValuesAt, Unmoved};
ghost use Rattle.at_once.specs.Words.{word_levels};

use crate::both::both_words;
use crate::digits::WORD_LEVELS;
use crate::ends::word_end;
use crate::moves::{move_values, move_where, turned};
use crate::prune::{MOST_SHAPES, prune};
use crate::window::frames_word;
use crate::word::trees_word;
use convert::{BLACK_BIT, WHITE_BIT};
use universe::Universe;

// One of two numbers, by a test.
fn chosen(test: bool, one: u64, other: u64) -> u64
    ensures { result ≡ cond test one other }
{
    if test { one } else { other }
}

// The better of two frames: the later where the last is sought, else the earlier.
fn better(backward: bool, one: u64, other: u64) -> u64
    ensures { result ≡ better backward one other }
{
    if backward {
        return one.max(other);
    }
    one.min(other)
}

// Betters a frame by a word of a block, off which its end within the window is read.
fn read_word(
    backward: bool,
    axes: usize,
    table: &[usize; Universe::MOST_LEVELS as usize],
    lengths: &[u64; WORD_LEVELS],
    low: &[u64; Universe::MOST_AXES as usize],
    side: &[u64; Universe::MOST_AXES as usize],
    left: u64,
    trees: u64,
    first: u64,
    last: u64,
    known: u64,
) -> u64
    requires { WordOver axes table.now lengths.now low.now side.now left trees }
    ensures { (over : WordOver axes table.now lengths.now low.now
        side.now left trees)
        → result ≡ end_over backward first last over.block known }
{
    if trees == 0 {
        return known;
    }
    let frame_axis = axes - 1;
    let frame = low[frame_axis];
    let wide = side[frame_axis];
    let window = frames_word(first, last, frame_axis, table, lengths, left, frame, wide);
    let word = trees & window;
    if word == 0 {
        return known;
    }
    let end = word_end(backward, frame_axis, table, lengths, left, word);
    better(backward, known, frame + end)
}

// Betters a frame by a block whose voxels have a digit each in one word.
fn end_word(
    backward: bool,
    axes: usize,
    rows: &[i64],
    balls: &[i64],
    table: &[usize; Universe::MOST_LEVELS as usize],
    lengths: &[u64; WORD_LEVELS],
    low: &[u64; Universe::MOST_AXES as usize],
    side: &[u64; Universe::MOST_AXES as usize],
    left: u64,
    codes: &[u16],
    from: usize,
    count: usize,
    first: u64,
    last: u64,
    known: u64,
    values: &[i64; csg::MOST_ROWS],
) -> u64
    requires fact { let surfaces = surfaces_of rows.now balls.now in
        BlockJob surfaces axes table.now lengths.now low.now side.now left codes.now from count
        (left + 1) }
    requires left_le_word_levels { left ≤ word_levels }
    requires right_values { RightValues rows.now low.now codes.now from count values.now }
    ensures { let surfaces = surfaces_of rows.now balls.now in
        ((job : BlockJob surfaces axes table.now lengths.now low.now
        side.now left codes.now from count (left + 1))
        → result ≡ end_over backward first last job known) }
{
    let trees = trees_word(
        axes, rows, balls, table, lengths, low, left, codes, from, count, values,
    );
    read_word(
        backward, axes, table, lengths, low, side, left, trees, first, last, known,
    )
}

// Betters a frame by a block both of whose halves have the levels of a word: their words are made by one pass over the
// codes.
fn end_words(
    backward: bool,
    axes: usize,
    rows: &[i64],
    balls: &[i64],
    table: &[usize; Universe::MOST_LEVELS as usize],
    lengths: &[u64; WORD_LEVELS],
    low: &mut [u64; Universe::MOST_AXES as usize],
    side: &mut [u64; Universe::MOST_AXES as usize],
    codes: &[u16],
    from: usize,
    count: usize,
    belows: &mut [u64; MOST_SHAPES],
    aboves: &mut [u64; MOST_SHAPES],
    first: u64,
    last: u64,
    known: u64,
    values: &[i64; csg::MOST_ROWS],
) -> u64
    requires fact { let surfaces = surfaces_of rows.now balls.now in
        let left = word_levels + 1 in
        BlockJob surfaces axes table.now lengths.now low.old side.old left codes.now from count left }
    requires both_shelves { BothShelves belows.old aboves.old }
    requires right_values { RightValues rows.now low.old codes.now from count values.now }
    ensures fact_2 { let surfaces = surfaces_of rows.now balls.now in
        let left = word_levels + 1 in
        ((job : BlockJob surfaces axes table.now lengths.now low.old
        side.old left codes.now from count left)
        → result ≡ end_over backward first last job known) }
    ensures put_back { PutBack (from + count) low.old side.old codes.now
        low.new side.new codes.now }
    ensures both_shelves_2 { BothShelves belows.new aboves.new }
{
    let left = WORD_LEVELS as u64;
    let axis = table[WORD_LEVELS];
    let near = low[axis];
    let whole = side[axis];
    let half = whole / 2;
    let words = both_words(
        axes, rows, balls, table, lengths, low, axis, half, codes, from, count, belows, aboves,
        values,
    );
    side[axis] = half;
    let below = read_word(
        backward,
        axes,
        table,
        lengths,
        low,
        side,
        left,
        words.below,
        first,
        last,
        known,
    );
    low[axis] = near + half;
    let above = read_word(
        backward,
        axes,
        table,
        lengths,
        low,
        side,
        left,
        words.above,
        first,
        last,
        below,
    );
    low[axis] = near;
    side[axis] = whole;
    above
}

// Betters a frame by a block. One that has no better frame in the window is not entered, nor is one over which the
// trees are WHITE; where they are BLACK it is that frame, and else what both halves come to. The codes of what is
// carried into it stay.
#[cycle(end_block_end_halves)]
pub(crate) fn end_block(
    backward: bool,
    axes: usize,
    rows: &[i64],
    balls: &[i64],
    table: &[usize; Universe::MOST_LEVELS as usize],
    lengths: &[u64; WORD_LEVELS],
    low: &mut [u64; Universe::MOST_AXES as usize],
    side: &mut [u64; Universe::MOST_AXES as usize],
    left: u64,
    codes: &mut [u16],
    from: usize,
    count: usize,
    starts: &mut [usize; MOST_SHAPES],
    marks: &mut [u8; MOST_SHAPES],
    belows: &mut [u64; MOST_SHAPES],
    aboves: &mut [u64; MOST_SHAPES],
    first: u64,
    last: u64,
    known: u64,
    values: &mut [i64; csg::MOST_ROWS],
    rounds: &mut [u8; csg::MOST_ROWS],
    round: u8,
) -> u64
    requires fact { let surfaces = surfaces_of rows.now balls.now in
        BlockJob surfaces axes table.now lengths.now low.old side.old left codes.old from count
        (left + 1) }
    requires shelves { Shelves starts.old marks.old }
    requires both_shelves { BothShelves belows.old aboves.old }
    requires values_at { ValuesAt rows.now low.old codes.old from count values.old rounds.old round }
    ensures fact_2 { let surfaces = surfaces_of rows.now balls.now in
        ((job : BlockJob surfaces axes table.now lengths.now low.old
        side.old left codes.old from count (left + 1))
        → result ≡ end_over backward first last job known) }
    ensures put_back { PutBack (from + count) low.old side.old codes.old
        low.new side.new codes.new }
    ensures shelves_2 { Shelves starts.new marks.new }
    ensures both_shelves_2 { BothShelves belows.new aboves.new }
    ensures unmoved { Unmoved values.old rounds.old values.new rounds.new }
{
    let frame_axis = axes - 1;
    let frame = low[frame_axis];
    let wide = side[frame_axis];
    let begin = frame.max(first);
    let end = (frame + (wide - 1)).min(last);
    if end < begin {
        return known;
    }
    let seen = chosen(backward, end, begin);
    let best = better(backward, known, seen);
    if best == known {
        return known;
    }
    if left <= WORD_LEVELS as u64 {
        return end_word(
            backward, axes, rows, balls, table, lengths, low, side, left, codes, from, count,
            first, last, known, values,
        );
    }
    let kept = prune(
        axes, rows, balls, low, side, codes, from, count, starts, marks, values,
    );
    let mark = kept.mark;
    let nodes = kept.nodes;
    if mark == WHITE_BIT {
        return known;
    }
    if mark == BLACK_BIT {
        return best;
    }
    end_halves(
        backward,
        axes,
        rows,
        balls,
        table,
        lengths,
        low,
        side,
        left,
        codes,
        from + count,
        nodes,
        starts,
        marks,
        belows,
        aboves,
        first,
        last,
        known,
        values,
        rounds,
        round,
    )
}

// Betters a frame by both halves of a block, the later one first where the last frame is sought. Where they have the
// levels of a word, by both at once; not where there are balls, which share nothing there.
#[cycle(end_block_end_halves)]
fn end_halves(
    backward: bool,
    axes: usize,
    rows: &[i64],
    balls: &[i64],
    table: &[usize; Universe::MOST_LEVELS as usize],
    lengths: &[u64; WORD_LEVELS],
    low: &mut [u64; Universe::MOST_AXES as usize],
    side: &mut [u64; Universe::MOST_AXES as usize],
    left: u64,
    codes: &mut [u16],
    from: usize,
    count: usize,
    starts: &mut [usize; MOST_SHAPES],
    marks: &mut [u8; MOST_SHAPES],
    belows: &mut [u64; MOST_SHAPES],
    aboves: &mut [u64; MOST_SHAPES],
    first: u64,
    last: u64,
    known: u64,
    values: &mut [i64; csg::MOST_ROWS],
    rounds: &mut [u8; csg::MOST_ROWS],
    round: u8,
) -> u64
    requires fact { let surfaces = surfaces_of rows.now balls.now in
        BlockJob surfaces axes table.now lengths.now low.old side.old left codes.old from count left }
    requires le_left { 1 ≤ left }
    requires shelves { Shelves starts.old marks.old }
    requires both_shelves { BothShelves belows.old aboves.old }
    requires values_at { ValuesAt rows.now low.old codes.old from count values.old rounds.old round }
    ensures fact_2 { let surfaces = surfaces_of rows.now balls.now in
        ((job : BlockJob surfaces axes table.now lengths.now low.old
        side.old left codes.old from count left)
        → result ≡ end_over backward first last job known) }
    ensures put_back { PutBack (from + count) low.old side.old codes.old
        low.new side.new codes.new }
    ensures shelves_2 { Shelves starts.new marks.new }
    ensures both_shelves_2 { BothShelves belows.new aboves.new }
    ensures unmoved { Unmoved values.old rounds.old values.new rounds.new }
{
    if left == WORD_LEVELS as u64 + 1 {
        if balls.len() == 0 {
            return end_words(
                backward, axes, rows, balls, table, lengths, low, side, codes, from, count, belows,
                aboves, first, last, known, values,
            );
        }
    }
    let axis = table[(left - 1) as usize];
    let near = low[axis];
    let whole = side[axis];
    let half = whole / 2;
    let far = near + half;
    side[axis] = half;
    low[axis] = chosen(backward, far, near);
    move_where(
        backward, true, rows, axis, half, codes, from, count, values, rounds, round,
    );
    let turn = turned(backward, round);
    let sooner = end_block(
        backward,
        axes,
        rows,
        balls,
        table,
        lengths,
        low,
        side,
        left - 1,
        codes,
        from,
        count,
        starts,
        marks,
        belows,
        aboves,
        first,
        last,
        known,
        values,
        rounds,
        turn,
    );
    low[axis] = chosen(backward, near, far);
    move_values(
        !backward, rows, axis, half, codes, from, count, values, rounds, turn,
    );
    let later = end_block(
        backward,
        axes,
        rows,
        balls,
        table,
        lengths,
        low,
        side,
        left - 1,
        codes,
        from,
        count,
        starts,
        marks,
        belows,
        aboves,
        first,
        last,
        sooner,
        values,
        rounds,
        1 - turn,
    );
    low[axis] = near;
    side[axis] = whole;
    move_where(
        !backward,
        false,
        rows,
        axis,
        half,
        codes,
        from,
        count,
        values,
        rounds,
        1 - turn,
    );
    later
}
