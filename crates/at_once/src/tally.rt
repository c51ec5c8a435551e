// The recursion over blocks that counts sure contact, contact at the centres and possible contact in a window.
ghost use Rattle.std.specs.Prelude.{◌≡◌, ◌+◌, ◌≤◌};
ghost use Rattle.csg.specs.Surfaces.{surfaces_of};
ghost use Rattle.at_once.specs.Words.{word_levels};
ghost use Rattle.at_once.specs.Own.{ThreeShelves};
ghost use Rattle.at_once.specs.Counting.{BlockJob, PutBack};
ghost use Rattle.at_once.specs.Moves.{RightValues, ValuesAt, Unmoved};
ghost use Rattle.at_once.specs.Tallies.{tally_over, tally_of, tallied, SmallTally, TallyShelves};

use crate::answer::Contacts;
use crate::digits::{WORD_LEVELS, ones_of};
use crate::frames::voxels_of;
use crate::moves::move_values;
use crate::prune::{MOST_SHAPES, prune};
use crate::three::three_words;
use crate::window::frames_word;
use convert::{BLACK_BIT, WHITE_BIT};
use universe::Universe;

// So many voxels of one colour, with no doubt: BLACK ones, or none.
fn tally_of(voxels: u64) -> Contacts
    ensures { result ≡ tally_of voxels }
{
    Contacts {
        sure: voxels,
        centre: voxels,
        possible: voxels,
    }
}

// Two tallies together.
fn tallied(below: Contacts, above: Contacts) -> Contacts
    requires small_tally { SmallTally below }
    requires small_tally_2 { SmallTally above }
    ensures { result ≡ tallied below above }
{
    Contacts {
        sure: below.sure + above.sure,
        centre: below.centre + above.centre,
        possible: below.possible + above.possible,
    }
}

// Counts a block whose voxels have a digit each in one word: nothing where none is possible.
fn tally_word(
    axes: usize,
    rows: &[i64],
    balls: &[i64],
    table: &[usize; Universe::MOST_LEVELS as usize],
    lengths: &[u64; WORD_LEVELS],
    low: &[u64; Universe::MOST_AXES as usize],
    side: &[u64; Universe::MOST_AXES as usize],
    left: u64,
    codes: &[u16],
    from: usize,
    count: usize,
    sures: &mut [u64; MOST_SHAPES],
    centres: &mut [u64; MOST_SHAPES],
    possibles: &mut [u64; MOST_SHAPES],
    first: u64,
    last: u64,
    values: &[i64; csg::MOST_ROWS],
) -> Contacts
    requires fact { let surfaces = surfaces_of rows.now balls.now in
        BlockJob surfaces axes table.now lengths.now low.now side.now left codes.now from count
        (left + 1) }
    requires left_le_word_levels { left ≤ word_levels }
    requires three_shelves { ThreeShelves sures.old centres.old possibles.old }
    requires right_values { RightValues rows.now low.now codes.now from count values.now }
    ensures fact_2 { let surfaces = surfaces_of rows.now balls.now in
        ((job : BlockJob surfaces axes table.now lengths.now low.now
        side.now left codes.now from count (left + 1)) → result ≡ tally_over first last job) }
    ensures three_shelves_2 { ThreeShelves sures.new centres.new possibles.new }
{
    let words = three_words(
        axes, rows, balls, table, lengths, low, left, codes, from, count, sures, centres,
        possibles, values,
    );
    let sure = words.sure;
    let centre = words.centre;
    let possible = words.possible;
    if possible == 0 {
        return tally_of(0);
    }
    let frame_axis = axes - 1;
    let frame = low[frame_axis];
    let wide = side[frame_axis];
    let window = frames_word(first, last, frame_axis, table, lengths, left, frame, wide);
    Contacts {
        sure: ones_of(sure & window),
        centre: ones_of(centre & window),
        possible: ones_of(possible & window),
    }
}

// Counts a block: nothing where none of its frames are the window's or the trees are WHITE over it, all voxels of its
// frames in the window where they are BLACK, and else both halves. The codes of what is carried into it stay.
#[cycle(tally_block_tally_halves)]
pub(crate) fn tally_block(
    axes: usize,
    rows: &[i64],
    balls: &[i64],
    table: &[usize; Universe::MOST_LEVELS as usize],
    lengths: &[u64; WORD_LEVELS],
    low: &mut [u64; Universe::MOST_AXES as usize],
    side: &mut [u64; Universe::MOST_AXES as usize],
    left: u64,
    codes: &mut [u16],
    from: usize,
    count: usize,
    starts: &mut [usize; MOST_SHAPES],
    marks: &mut [u8; MOST_SHAPES],
    sures: &mut [u64; MOST_SHAPES],
    centres: &mut [u64; MOST_SHAPES],
    possibles: &mut [u64; MOST_SHAPES],
    first: u64,
    last: u64,
    values: &mut [i64; csg::MOST_ROWS],
    rounds: &mut [u8; csg::MOST_ROWS],
    round: u8,
) -> Contacts
    requires fact { let surfaces = surfaces_of rows.now balls.now in
        BlockJob surfaces axes table.now lengths.now low.old side.old left codes.old from count
        (left + 1) }
    requires tally_shelves { TallyShelves starts.old marks.old sures.old centres.old possibles.old }
    requires values_at { ValuesAt rows.now low.old codes.old from count values.old rounds.old round }
    ensures fact_2 { let surfaces = surfaces_of rows.now balls.now in
        ((job : BlockJob surfaces axes table.now lengths.now low.old
        side.old left codes.old from count (left + 1)) → result ≡ tally_over first last job) }
    ensures put_back { PutBack (from + count) low.old side.old codes.old
        low.new side.new codes.new }
    ensures tally_shelves_2 { TallyShelves starts.new marks.new sures.new centres.new
        possibles.new }
    ensures unmoved { Unmoved values.old rounds.old values.new rounds.new }
{
    let frame_axis = axes - 1;
    let frame = low[frame_axis];
    let wide = side[frame_axis];
    let begin = frame.max(first);
    let end = (frame + (wide - 1)).min(last);
    if end < begin {
        return tally_of(0);
    }
    if left <= WORD_LEVELS as u64 {
        return tally_word(
            axes, rows, balls, table, lengths, low, side, left, codes, from, count, sures, centres,
            possibles, first, last, values,
        );
    }
    let kept = prune(
        axes, rows, balls, low, side, codes, from, count, starts, marks, values,
    );
    let mark = kept.mark;
    let nodes = kept.nodes;
    if mark == WHITE_BIT {
        return tally_of(0);
    }
    if mark == BLACK_BIT {
        return tally_of(voxels_of(left, wide, begin, end));
    }
    tally_halves(
        axes,
        rows,
        balls,
        table,
        lengths,
        low,
        side,
        left,
        codes,
        from + count,
        nodes,
        starts,
        marks,
        sures,
        centres,
        possibles,
        first,
        last,
        values,
        rounds,
        round,
    )
}

// Counts both halves of a block.
#[cycle(tally_block_tally_halves)]
fn tally_halves(
    axes: usize,
    rows: &[i64],
    balls: &[i64],
    table: &[usize; Universe::MOST_LEVELS as usize],
    lengths: &[u64; WORD_LEVELS],
    low: &mut [u64; Universe::MOST_AXES as usize],
    side: &mut [u64; Universe::MOST_AXES as usize],
    left: u64,
    codes: &mut [u16],
    from: usize,
    count: usize,
    starts: &mut [usize; MOST_SHAPES],
    marks: &mut [u8; MOST_SHAPES],
    sures: &mut [u64; MOST_SHAPES],
    centres: &mut [u64; MOST_SHAPES],
    possibles: &mut [u64; MOST_SHAPES],
    first: u64,
    last: u64,
    values: &mut [i64; csg::MOST_ROWS],
    rounds: &mut [u8; csg::MOST_ROWS],
    round: u8,
) -> Contacts
    requires fact { let surfaces = surfaces_of rows.now balls.now in
        BlockJob surfaces axes table.now lengths.now low.old side.old left codes.old from count left }
    requires le_left { 1 ≤ left }
    requires tally_shelves { TallyShelves starts.old marks.old sures.old centres.old possibles.old }
    requires values_at { ValuesAt rows.now low.old codes.old from count values.old rounds.old round }
    ensures fact_2 { let surfaces = surfaces_of rows.now balls.now in
        ((job : BlockJob surfaces axes table.now lengths.now low.old
        side.old left codes.old from count left) → result ≡ tally_over first last job) }
    ensures put_back { PutBack (from + count) low.old side.old codes.old
        low.new side.new codes.new }
    ensures tally_shelves_2 { TallyShelves starts.new marks.new sures.new centres.new
        possibles.new }
    ensures unmoved { Unmoved values.old rounds.old values.new rounds.new }
{
    let axis = table[(left - 1) as usize];
    let near = low[axis];
    let whole = side[axis];
    let half = whole / 2;
    side[axis] = half;
    let below = tally_block(
        axes,
        rows,
        balls,
        table,
        lengths,
        low,
        side,
        left - 1,
        codes,
        from,
        count,
        starts,
        marks,
        sures,
        centres,
        possibles,
        first,
        last,
        values,
        rounds,
        round,
    );
    low[axis] = near + half;
    move_values(
        true, rows, axis, half, codes, from, count, values, rounds, round,
    );
    let above = tally_block(
        axes,
        rows,
        balls,
        table,
        lengths,
        low,
        side,
        left - 1,
        codes,
        from,
        count,
        starts,
        marks,
        sures,
        centres,
        possibles,
        first,
        last,
        values,
        rounds,
        1 - round,
    );
    low[axis] = near;
    side[axis] = whole;
    move_values(
        false,
        rows,
        axis,
        half,
        codes,
        from,
        count,
        values,
        rounds,
        1 - round,
    );
    tallied(below, above)
}
