// The recursion over blocks that joins the black voxels of a window to a contact.
ghost use Rattle.std.specs.Prelude.{◌≡◌, ◌+◌, ◌≤◌};
ghost use Rattle.csg.specs.Surfaces.{surfaces_of};
ghost use Rattle.pruned.specs.Nodes.{Shelves};
ghost use Rattle.at_once.specs.Both.{BothShelves};
ghost use Rattle.at_once.specs.Counting.{contact_over, CountJob, CountWord, PutBack};
ghost use Rattle.at_once.specs.Moves.{RightValues, ValuesAt, Unmoved};
ghost use Rattle.at_once.specs.Words.{word_levels};

use crate::both::both_words;
use crate::digits::{WORD_LEVELS, ones_of};
use crate::ends::word_end;
use crate::frames::{joined, voxels_of};
use crate::moves::move_values;
use crate::prune::{MOST_SHAPES, prune};
use crate::window::frames_word;
use crate::word::trees_word;
use bintree::Contact;
use convert::{BLACK_BIT, WHITE_BIT};
use universe::Universe;

// Joins a word of a block: its ones within the window are counted, and the ends are read off it where the block's
// frames could better those that are known.
fn join_word(
    axes: usize,
    table: &[usize; Universe::MOST_LEVELS as usize],
    lengths: &[u64; WORD_LEVELS],
    low: &[u64; Universe::MOST_AXES as usize],
    side: &[u64; Universe::MOST_AXES as usize],
    left: u64,
    trees: u64,
    first: u64,
    last: u64,
    contact: Contact,
) -> Contact
    requires { CountWord axes table.now lengths.now low.now side.now left trees first last contact }
    ensures { (job : CountWord axes table.now lengths.now low.now
        side.now left trees first last contact)
        → result ≡ contact_over first last job.over.block contact }
{
    if trees == 0 {
        return contact;
    }
    let frame_axis = axes - 1;
    let frame = low[frame_axis];
    let wide = side[frame_axis];
    let window = frames_word(first, last, frame_axis, table, lengths, left, frame, wide);
    let word = trees & window;
    if word == 0 {
        return contact;
    }
    let voxels = ones_of(word);
    let stop = frame + (wide - 1);
    if contact.first <= frame && stop <= contact.last {
        return joined(contact, frame, stop, voxels);
    }
    let begin = word_end(false, frame_axis, table, lengths, left, word);
    let end = word_end(true, frame_axis, table, lengths, left, word);
    joined(contact, frame + begin, frame + end, voxels)
}

// Joins a block whose voxels have a digit each in one word.
fn count_word(
    axes: usize,
    rows: &[i64],
    balls: &[i64],
    table: &[usize; Universe::MOST_LEVELS as usize],
    lengths: &[u64; WORD_LEVELS],
    low: &[u64; Universe::MOST_AXES as usize],
    side: &[u64; Universe::MOST_AXES as usize],
    left: u64,
    codes: &[u16],
    from: usize,
    count: usize,
    first: u64,
    last: u64,
    contact: Contact,
    values: &[i64; csg::MOST_ROWS],
) -> Contact
    requires fact { let surfaces = surfaces_of rows.now balls.now in
        CountJob surfaces axes table.now lengths.now low.now side.now left codes.now from count (left + 1)
        first last contact }
    requires left_le_word_levels { left ≤ word_levels }
    requires right_values { RightValues rows.now low.now codes.now from count values.now }
    ensures { let surfaces = surfaces_of rows.now balls.now in
        ((job : CountJob surfaces axes table.now lengths.now low.now
        side.now left codes.now from count (left + 1) first last contact)
        → result ≡ contact_over first last job.block contact) }
{
    let trees = trees_word(
        axes, rows, balls, table, lengths, low, left, codes, from, count, values,
    );
    join_word(
        axes, table, lengths, low, side, left, trees, first, last, contact,
    )
}

// Joins a block both of whose halves have the levels of a word: their words are made by one pass over the codes.
fn count_words(
    axes: usize,
    rows: &[i64],
    balls: &[i64],
    table: &[usize; Universe::MOST_LEVELS as usize],
    lengths: &[u64; WORD_LEVELS],
    low: &mut [u64; Universe::MOST_AXES as usize],
    side: &mut [u64; Universe::MOST_AXES as usize],
    codes: &[u16],
    from: usize,
    count: usize,
    belows: &mut [u64; MOST_SHAPES],
    aboves: &mut [u64; MOST_SHAPES],
    first: u64,
    last: u64,
    contact: Contact,
    values: &[i64; csg::MOST_ROWS],
) -> Contact
    requires fact { let surfaces = surfaces_of rows.now balls.now in
        let left = word_levels + 1 in
        CountJob surfaces axes table.now lengths.now low.old side.old left codes.now from count left
        first last contact }
    requires both_shelves { BothShelves belows.old aboves.old }
    requires right_values { RightValues rows.now low.old codes.now from count values.now }
    ensures fact_2 { let surfaces = surfaces_of rows.now balls.now in
        let left = word_levels + 1 in
        ((job : CountJob surfaces axes table.now lengths.now low.old
        side.old left codes.now from count left first last contact)
        → result ≡ contact_over first last job.block contact) }
    ensures put_back { PutBack (from + count) low.old side.old codes.now
        low.new side.new codes.now }
    ensures both_shelves_2 { BothShelves belows.new aboves.new }
{
    let left = WORD_LEVELS as u64;
    let axis = table[WORD_LEVELS];
    let near = low[axis];
    let whole = side[axis];
    let half = whole / 2;
    let words = both_words(
        axes, rows, balls, table, lengths, low, axis, half, codes, from, count, belows, aboves,
        values,
    );
    side[axis] = half;
    let below = join_word(
        axes,
        table,
        lengths,
        low,
        side,
        left,
        words.below,
        first,
        last,
        contact,
    );
    low[axis] = near + half;
    let above = join_word(
        axes,
        table,
        lengths,
        low,
        side,
        left,
        words.above,
        first,
        last,
        below,
    );
    low[axis] = near;
    side[axis] = whole;
    above
}

// Joins a block: nothing where none of its frames are the window's or the trees are WHITE over it, its frames in the
// window where they are BLACK, and else both halves. The codes of what is carried into it stay.
#[cycle(count_block_count_halves)]
pub(crate) fn count_block(
    axes: usize,
    rows: &[i64],
    balls: &[i64],
    table: &[usize; Universe::MOST_LEVELS as usize],
    lengths: &[u64; WORD_LEVELS],
    low: &mut [u64; Universe::MOST_AXES as usize],
    side: &mut [u64; Universe::MOST_AXES as usize],
    left: u64,
    codes: &mut [u16],
    from: usize,
    count: usize,
    starts: &mut [usize; MOST_SHAPES],
    marks: &mut [u8; MOST_SHAPES],
    belows: &mut [u64; MOST_SHAPES],
    aboves: &mut [u64; MOST_SHAPES],
    first: u64,
    last: u64,
    contact: Contact,
    values: &mut [i64; csg::MOST_ROWS],
    rounds: &mut [u8; csg::MOST_ROWS],
    round: u8,
) -> Contact
    requires fact { let surfaces = surfaces_of rows.now balls.now in
        CountJob surfaces axes table.now lengths.now low.old side.old left codes.old from count (left + 1)
        first last contact }
    requires shelves { Shelves starts.old marks.old }
    requires both_shelves { BothShelves belows.old aboves.old }
    requires values_at { ValuesAt rows.now low.old codes.old from count values.old rounds.old round }
    ensures fact_2 { let surfaces = surfaces_of rows.now balls.now in
        ((job : CountJob surfaces axes table.now lengths.now low.old
        side.old left codes.old from count (left + 1) first last contact)
        → result ≡ contact_over first last job.block contact) }
    ensures put_back { PutBack (from + count) low.old side.old codes.old
        low.new side.new codes.new }
    ensures shelves_2 { Shelves starts.new marks.new }
    ensures both_shelves_2 { BothShelves belows.new aboves.new }
    ensures unmoved { Unmoved values.old rounds.old values.new rounds.new }
{
    let frame_axis = axes - 1;
    let frame = low[frame_axis];
    let wide = side[frame_axis];
    let begin = frame.max(first);
    let end = (frame + (wide - 1)).min(last);
    if end < begin {
        return contact;
    }
    if left <= WORD_LEVELS as u64 {
        return count_word(
            axes, rows, balls, table, lengths, low, side, left, codes, from, count, first, last,
            contact, values,
        );
    }
    let kept = prune(
        axes, rows, balls, low, side, codes, from, count, starts, marks, values,
    );
    let mark = kept.mark;
    let nodes = kept.nodes;
    if mark == WHITE_BIT {
        return contact;
    }
    if mark == BLACK_BIT {
        return joined(contact, begin, end, voxels_of(left, wide, begin, end));
    }
    count_halves(
        axes,
        rows,
        balls,
        table,
        lengths,
        low,
        side,
        left,
        codes,
        from + count,
        nodes,
        starts,
        marks,
        belows,
        aboves,
        first,
        last,
        contact,
        values,
        rounds,
        round,
    )
}

// Joins both halves of a block; where they have the levels of a word, at once.
#[cycle(count_block_count_halves)]
fn count_halves(
    axes: usize,
    rows: &[i64],
    balls: &[i64],
    table: &[usize; Universe::MOST_LEVELS as usize],
    lengths: &[u64; WORD_LEVELS],
    low: &mut [u64; Universe::MOST_AXES as usize],
    side: &mut [u64; Universe::MOST_AXES as usize],
    left: u64,
    codes: &mut [u16],
    from: usize,
    count: usize,
    starts: &mut [usize; MOST_SHAPES],
    marks: &mut [u8; MOST_SHAPES],
    belows: &mut [u64; MOST_SHAPES],
    aboves: &mut [u64; MOST_SHAPES],
    first: u64,
    last: u64,
    contact: Contact,
    values: &mut [i64; csg::MOST_ROWS],
    rounds: &mut [u8; csg::MOST_ROWS],
    round: u8,
) -> Contact
    requires fact { let surfaces = surfaces_of rows.now balls.now in
        CountJob surfaces axes table.now lengths.now low.old side.old left codes.old from count left
        first last contact }
    requires le_left { 1 ≤ left }
    requires shelves { Shelves starts.old marks.old }
    requires both_shelves { BothShelves belows.old aboves.old }
    requires values_at { ValuesAt rows.now low.old codes.old from count values.old rounds.old round }
    ensures fact_2 { let surfaces = surfaces_of rows.now balls.now in
        ((job : CountJob surfaces axes table.now lengths.now low.old
        side.old left codes.old from count left first last contact)
        → result ≡ contact_over first last job.block contact) }
    ensures put_back { PutBack (from + count) low.old side.old codes.old
        low.new side.new codes.new }
    ensures shelves_2 { Shelves starts.new marks.new }
    ensures both_shelves_2 { BothShelves belows.new aboves.new }
    ensures unmoved { Unmoved values.old rounds.old values.new rounds.new }
{
    if left == WORD_LEVELS as u64 + 1 {
        return count_words(
            axes, rows, balls, table, lengths, low, side, codes, from, count, belows, aboves,
            first, last, contact, values,
        );
    }
    let axis = table[(left - 1) as usize];
    let near = low[axis];
    let whole = side[axis];
    let half = whole / 2;
    side[axis] = half;
    let below = count_block(
        axes,
        rows,
        balls,
        table,
        lengths,
        low,
        side,
        left - 1,
        codes,
        from,
        count,
        starts,
        marks,
        belows,
        aboves,
        first,
        last,
        contact,
        values,
        rounds,
        round,
    );
    low[axis] = near + half;
    move_values(
        true, rows, axis, half, codes, from, count, values, rounds, round,
    );
    let above = count_block(
        axes,
        rows,
        balls,
        table,
        lengths,
        low,
        side,
        left - 1,
        codes,
        from,
        count,
        starts,
        marks,
        belows,
        aboves,
        first,
        last,
        below,
        values,
        rounds,
        1 - round,
    );
    low[axis] = near;
    side[axis] = whole;
    move_values(
        false,
        rows,
        axis,
        half,
        codes,
        from,
        count,
        values,
        rounds,
        1 - round,
    );
    above
}
