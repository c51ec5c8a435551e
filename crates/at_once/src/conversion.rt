// The conversions over codes: the checks in their order, local room for codes and for short expressions, and the whole
// universe, merged by colours or raw by marks.
ghost use Rattle.std.specs.Prelude.{◌≡◌, ◌+◌, ◌≤◌, length};
ghost use Rattle.std.proofs.lemmas.List.Edits.{sets};
ghost use Rattle.universe.specs.Room.{room};
ghost use Rattle.bintree.specs.Answers.{written_answer, written_buffer};
ghost use Rattle.bintree.specs.Told.{writing_told};
ghost use Rattle.csg.specs.Surfaces.{surfaces_of};
ghost use Rattle.csg.specs.Words.{halfspace_words, ball_words};
ghost use Rattle.convert.specs.Blocks.{Ready, RoomReady};
ghost use Rattle.convert.specs.Answers.{
  written_of_two,
  two_trees_refusal,
  raw_of_one_answer,
  raw_of_one_buffer,
  merged_of_one_answer,
  merged_of_one_buffer,
  raw_of_two_answer,
  raw_of_two_buffer,
  merged_of_two_answer,
  merged_of_two_buffer,
};
ghost use Rattle.pruned.specs.Nodes.{Shelves};
ghost use Rattle.at_once.specs.Counting.{BlockJob};
ghost use Rattle.at_once.specs.Merged.{AtPlace};
ghost use Rattle.at_once.specs.Raw.{WrittenShape};
ghost use Rattle.at_once.specs.Moves.{ValuesAt};
ghost use Rattle.at_once.specs.Conversions.{written_over, CodesReady, FewReady};
ghost use Rattle.at_once.specs.Whole.{most_codes};

use crate::digits::WORD_LEVELS;
use crate::lay::lay_block;
use crate::prune::MOST_SHAPES;
use crate::raw::raw_block;
use crate::text::HELD_UNIT;
use crate::whole::{MOST_CODES, lengths_of, load_both, whole_sides};
use universe::{Universe, Unwritten};

// Codes that are soon cleared, for where few words are carried.
const FEW_CODES: usize = 1_000;

// Codes that are sooner cleared, for where fewer yet are carried.
const LEAST_CODES: usize = 128;

// Scratch room for where no more than this is lent.
const SHORT_SCRATCH: usize = 512;

// The same for where more is lent; where more than this is lent none is taken.
const MOST_SCRATCH: usize = 4_000;

// Room for the expression of two trees.
fn room_of(universe: Universe, first: &[u16], second: &[u16]) -> u64
    requires { RoomReady universe first.now second.now }
    ensures { let leaves = halfspace_words first.now + halfspace_words second.now in
        let balls = ball_words first.now + ball_words second.now in
        result ≡ room universe leaves balls }
{
    let leaves = csg::halfspace_words(first) + csg::halfspace_words(second);
    let balls = csg::ball_words(first) + csg::ball_words(second);
    universe.room(leaves, balls).unwrap_or(0)
}

// Writes the shape of a block, merged or raw, from the front of the room on, as far as there is room, and gives its
// length.
fn write_block<const MERGING: bool>(
    axes: usize,
    rows: &[i64],
    balls: &[i64],
    table: &[usize; Universe::MOST_LEVELS as usize],
    lengths: &[u64; WORD_LEVELS],
    low: &mut [u64; Universe::MOST_AXES as usize],
    side: &mut [u64; Universe::MOST_AXES as usize],
    left: u64,
    codes: &mut [u16],
    count: usize,
    starts: &mut [usize; MOST_SHAPES],
    marks: &mut [u8; MOST_SHAPES],
    out: &mut [u8],
    values: &mut [i64; csg::MOST_ROWS],
    rounds: &mut [u8; csg::MOST_ROWS],
) -> usize
    requires fact { let surfaces = surfaces_of rows.now balls.now in
        BlockJob surfaces axes table.now lengths.now low.old side.old left codes.old 0 count (left + 1) }
    requires shelves { Shelves starts.old marks.old }
    requires at_place { AtPlace left 0 }
    requires values_at { ValuesAt rows.now low.old codes.old 0 count values.old rounds.old 0 }
    ensures { let surfaces = surfaces_of rows.now balls.now in
        ((job : BlockJob surfaces axes table.now lengths.now low.old
        side.old left codes.old 0 count (left + 1))
        → WrittenShape (written_over MERGING job) out.old 0 result out.new) }
{
    if MERGING {
        let mut belows = [0u64; MOST_SHAPES];
        let mut aboves = [0u64; MOST_SHAPES];
        let packed = lay_block(
            axes,
            rows,
            balls,
            table,
            lengths,
            low,
            side,
            left,
            codes,
            0,
            count,
            starts,
            marks,
            &mut belows,
            &mut aboves,
            out,
            0,
            values,
            rounds,
            0,
        );
        bintree::note(out, 0, (packed % HELD_UNIT) as u8);
        return packed / HELD_UNIT;
    }
    raw_block(
        axes, rows, balls, table, lengths, low, side, left, codes, 0, count, starts, marks, out, 0,
        values, rounds, 0,
    )
}

// Writes the expression of the whole universe, as far as there is room, and gives its length.
fn write_whole<const MERGING: bool>(
    universe: Universe,
    rows: &[i64],
    balls: &[i64],
    first: &[u16],
    second: &[u16],
    codes: &mut [u16],
    out: &mut [u8],
) -> usize
    requires { let surfaces = surfaces_of rows.now balls.now in
        CodesReady universe surfaces first.now second.now codes.old }
    ensures result_value { let surfaces = surfaces_of rows.now balls.now in
        let written = written_of_two MERGING universe surfaces first.now second.now in
        result ≡ length written }
    ensures out_after { let surfaces = surfaces_of rows.now balls.now in
        let written = written_of_two MERGING universe surfaces first.now second.now in
        out.new ≡ sets out.old 0 written }
{
    let table = universe.axes_left();
    let lengths = lengths_of(universe, &table);
    let mut low = [0u64; Universe::MOST_AXES as usize];
    let mut side = whole_sides(universe);
    let mut starts = [0usize; MOST_SHAPES];
    let mut marks = [0u8; MOST_SHAPES];
    let mut values = [0i64; csg::MOST_ROWS];
    let mut rounds = [0u8; csg::MOST_ROWS];
    load_both(rows, first, second, codes, &mut starts, &mut values);
    write_block::<MERGING>(
        universe.axes as usize,
        rows,
        balls,
        &table,
        &lengths,
        &mut low,
        &mut side,
        universe.levels(),
        codes,
        first.len() + second.len(),
        &mut starts,
        &mut marks,
        out,
        &mut values,
        &mut rounds,
    )
}

// The expression is written into scratch room first, which may be none, and again only where it is longer.
fn through<const MERGING: bool>(
    universe: Universe,
    rows: &[i64],
    balls: &[i64],
    first: &[u16],
    second: &[u16],
    codes: &mut [u16],
    scratch: &mut [u8],
    out: &mut [u8],
) -> Result<u64, Unwritten>
    requires { let surfaces = surfaces_of rows.now balls.now in
        CodesReady universe surfaces first.now second.now codes.old }
    ensures result_value { let surfaces = surfaces_of rows.now balls.now in
        let written = written_of_two MERGING universe surfaces first.now second.now in
        writing_told result ≡ written_answer 0 out.old written }
    ensures out_after { let surfaces = surfaces_of rows.now balls.now in
        let written = written_of_two MERGING universe surfaces first.now second.now in
        out.new ≡ written_buffer 0 out.old written }
{
    let length = write_whole::<MERGING>(universe, rows, balls, first, second, codes, scratch);
    if out.len() < length {
        return Err(Unwritten::NoRoom(length as u64));
    }
    if length <= scratch.len() {
        bintree::copy(&scratch[..length], out, 0);
        return Ok(length as u64);
    }
    write_whole::<MERGING>(universe, rows, balls, first, second, codes, out);
    Ok(length as u64)
}

// The expression of two trees that no check refuses by way of scratch room, no shorter than the room lent, or of none
// where much is lent: then it is measured first.
fn in_scratch<const MERGING: bool>(
    universe: Universe,
    rows: &[i64],
    balls: &[i64],
    first: &[u16],
    second: &[u16],
    codes: &mut [u16],
    out: &mut [u8],
) -> Result<u64, Unwritten>
    requires { let surfaces = surfaces_of rows.now balls.now in
        CodesReady universe surfaces first.now second.now codes.old }
    ensures result_value { let surfaces = surfaces_of rows.now balls.now in
        let written = written_of_two MERGING universe surfaces first.now second.now in
        writing_told result ≡ written_answer 0 out.old written }
    ensures out_after { let surfaces = surfaces_of rows.now balls.now in
        let written = written_of_two MERGING universe surfaces first.now second.now in
        out.new ≡ written_buffer 0 out.old written }
{
    if out.len() <= SHORT_SCRATCH {
        let mut scratch = [0u8; SHORT_SCRATCH];
        return through::<MERGING>(
            universe,
            rows,
            balls,
            first,
            second,
            codes,
            &mut scratch,
            out,
        );
    }
    if out.len() <= MOST_SCRATCH {
        let mut scratch = [0u8; MOST_SCRATCH];
        return through::<MERGING>(
            universe,
            rows,
            balls,
            first,
            second,
            codes,
            &mut scratch,
            out,
        );
    }
    let mut none = [0u8; 0];
    through::<MERGING>(universe, rows, balls, first, second, codes, &mut none, out)
}

// The same: written at once where as much room is lent as the room formula says, which is not asked where so little is
// lent that scratch room serves as well.
fn in_codes<const MERGING: bool>(
    universe: Universe,
    rows: &[i64],
    balls: &[i64],
    first: &[u16],
    second: &[u16],
    codes: &mut [u16],
    out: &mut [u8],
) -> Result<u64, Unwritten>
    requires { let surfaces = surfaces_of rows.now balls.now in
        CodesReady universe surfaces first.now second.now codes.old }
    ensures result_value { let surfaces = surfaces_of rows.now balls.now in
        let written = written_of_two MERGING universe surfaces first.now second.now in
        writing_told result ≡ written_answer 0 out.old written }
    ensures out_after { let surfaces = surfaces_of rows.now balls.now in
        let written = written_of_two MERGING universe surfaces first.now second.now in
        out.new ≡ written_buffer 0 out.old written }
{
    if out.len() <= SHORT_SCRATCH {
        return in_scratch::<MERGING>(universe, rows, balls, first, second, codes, out);
    }
    if room_of(universe, first, second) <= out.len() as u64 {
        let length = write_whole::<MERGING>(universe, rows, balls, first, second, codes, out);
        return Ok(length as u64);
    }
    in_scratch::<MERGING>(universe, rows, balls, first, second, codes, out)
}

// The same with local room for so many codes.
fn in_room<const CODES: usize, const MERGING: bool>(
    universe: Universe,
    rows: &[i64],
    balls: &[i64],
    first: &[u16],
    second: &[u16],
    out: &mut [u8],
) -> Result<u64, Unwritten>
    requires codes_small { CODES ≤ most_codes }
    requires few_ready { let surfaces = surfaces_of rows.now balls.now in
        FewReady CODES universe surfaces first.now second.now }
    ensures result_value { let surfaces = surfaces_of rows.now balls.now in
        let written = written_of_two MERGING universe surfaces first.now second.now in
        writing_told result ≡ written_answer 0 out.old written }
    ensures out_after { let surfaces = surfaces_of rows.now balls.now in
        let written = written_of_two MERGING universe surfaces first.now second.now in
        out.new ≡ written_buffer 0 out.old written }
{
    let mut codes = [0u16; CODES];
    in_codes::<MERGING>(universe, rows, balls, first, second, &mut codes, out)
}

// The expression of two trees, or the number that refuses it.
fn of_two<const MERGING: bool>(
    universe: Universe,
    rows: &[i64],
    balls: &[i64],
    first: &[u16],
    second: &[u16],
    out: &mut [u8],
) -> Result<u64, Unwritten>
    ensures result_value { let surfaces = surfaces_of rows.now balls.now in
        let first = first.entry.now in
        let second = second.entry.now in
        let written = written_of_two MERGING universe surfaces first second in
        writing_told result ≡ written_answer (two_trees_refusal universe surfaces first second) out.old written }
    ensures out_after { let surfaces = surfaces_of rows.now balls.now in
        let first = first.entry.now in
        let second = second.entry.now in
        let written = written_of_two MERGING universe surfaces first second in
        out.new
        ≡ written_buffer (two_trees_refusal universe surfaces first second) out.old written }
{
    convert::check_scene(universe, rows, balls, first, second)?;
    let words = (first.len() + second.len()) as u64;
    let needed = (universe.levels() + 1) * words;
    if needed <= LEAST_CODES as u64 {
        return in_room::<LEAST_CODES, MERGING>(universe, rows, balls, first, second, out);
    }
    if needed <= FEW_CODES as u64 {
        return in_room::<FEW_CODES, MERGING>(universe, rows, balls, first, second, out);
    }
    in_room::<MOST_CODES, MERGING>(universe, rows, balls, first, second, out)
}

// The merged expression of two trees intersected. Room that is as large as the room formula says suffices.
pub fn merged_of_two(
    universe: Universe,
    rows: &[i64],
    balls: &[i64],
    first: &[u16],
    second: &[u16],
    out: &mut [u8],
) -> Result<u64, Unwritten>
    ensures result_value { let surfaces = surfaces_of rows.now balls.now in
        writing_told result ≡ merged_of_two_answer universe surfaces first.now second.now out.old }
    ensures out_after { let surfaces = surfaces_of rows.now balls.now in
        out.new
        ≡ merged_of_two_buffer universe surfaces first.now second.now out.old }
{
    of_two::<true>(universe, rows, balls, first, second, out)
}

// The merged expression of one tree: that tree intersected with BLACK.
pub fn merged_of_one(
    universe: Universe,
    rows: &[i64],
    balls: &[i64],
    words: &[u16],
    out: &mut [u8],
) -> Result<u64, Unwritten>
    ensures result_value { let surfaces = surfaces_of rows.now balls.now in
        writing_told result ≡ merged_of_one_answer universe surfaces words.now out.old }
    ensures out_after { let surfaces = surfaces_of rows.now balls.now in
        out.new ≡ merged_of_one_buffer universe surfaces words.now out.old }
{
    let black = [csg::BLACK];
    of_two::<true>(universe, rows, balls, words, &black, out)
}

// The raw expression of two trees intersected. Room that is as large as the room formula says suffices.
pub fn raw_of_two(
    universe: Universe,
    rows: &[i64],
    balls: &[i64],
    first: &[u16],
    second: &[u16],
    out: &mut [u8],
) -> Result<u64, Unwritten>
    ensures result_value { let surfaces = surfaces_of rows.now balls.now in
        writing_told result ≡ raw_of_two_answer universe surfaces first.now second.now out.old }
    ensures out_after { let surfaces = surfaces_of rows.now balls.now in
        out.new
        ≡ raw_of_two_buffer universe surfaces first.now second.now out.old }
{
    of_two::<false>(universe, rows, balls, first, second, out)
}

// The raw expression of one tree: that tree intersected with BLACK.
pub fn raw_of_one(
    universe: Universe,
    rows: &[i64],
    balls: &[i64],
    words: &[u16],
    out: &mut [u8],
) -> Result<u64, Unwritten>
    ensures result_value { let surfaces = surfaces_of rows.now balls.now in
        writing_told result ≡ raw_of_one_answer universe surfaces words.now out.old }
    ensures out_after { let surfaces = surfaces_of rows.now balls.now in
        out.new ≡ raw_of_one_buffer universe surfaces words.now out.old }
{
    let black = [csg::BLACK];
    of_two::<false>(universe, rows, balls, words, &black, out)
}
