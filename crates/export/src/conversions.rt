// Room, the leaves of a tree, and the conversions of one tree and of two intersected.
ghost use Rattle.std.specs.Prelude.{◌≡◌};
ghost use Rattle.universe.specs.Room.{room_answer};
ghost use Rattle.bintree.specs.Told.{writing_told};
ghost use Rattle.csg.specs.Words.{halfspace_words, ball_words};
ghost use Rattle.csg.specs.Surfaces.{surfaces_of};
ghost use Rattle.convert.specs.Answers.{raw_of_one_answer, raw_of_one_buffer, raw_of_two_answer, raw_of_two_buffer};
ghost use Rattle.convert.specs.Answers.{merged_of_one_answer, merged_of_one_buffer, merged_of_two_answer, merged_of_two_buffer};
ghost use Rattle.export.specs.Arrays.{universe_of, room_array, length_array};

use crate::universe_of;
use universe::Unwritten;

// The number with which a call into lent room answers; its length, or how much is needed, goes into the array.
pub(crate) fn length_told(written: Result<u64, Unwritten>, answer: &mut [u64; 1]) -> u64
    ensures value { result ≡ (writing_told written).refusal }
    ensures answer_after { answer.new ≡ length_array (writing_told written) }
{
    match written {
        Ok(length) => {
            *answer = [length];
            0
        }
        Err(unwritten) => {
            *answer = [unwritten.needed()];
            unwritten.number()
        }
    }
}

// Room in symbols, for so many words that name a halfspace and so many that name a ball (rules 4.7 and 4.14).
pub fn durbizhan_room(
    axes: u64,
    bits: u64,
    frame_bits: u64,
    leaves: u64,
    balls: u64,
    answer: &mut [u64; 1],
) -> u64
    ensures value { result ≡ (room_answer (universe_of axes bits frame_bits) leaves balls).refusal }
    ensures answer_after { answer.new ≡ room_array (room_answer (universe_of axes bits frame_bits) leaves balls) }
{
    let universe = universe_of(axes, bits, frame_bits);
    match universe.room(leaves, balls) {
        Ok(symbols) => {
            *answer = [symbols];
            0
        }
        Err(refusal) => {
            *answer = [0];
            refusal.number()
        }
    }
}

// How many words of a tree name a halfspace.
pub fn durbizhan_leaves(words: &[u16]) -> u64
    ensures { result ≡ halfspace_words words.now }
{
    csg::halfspace_words(words)
}

// How many words of a tree name a ball.
pub fn durbizhan_balls(words: &[u16]) -> u64
    ensures { result ≡ ball_words words.now }
{
    csg::ball_words(words)
}

// The raw expression of one tree.
pub fn durbizhan_raw_one(
    axes: u64,
    bits: u64,
    frame_bits: u64,
    rows: &[i64],
    balls: &[i64],
    words: &[u16],
    out: &mut [u8],
    answer: &mut [u64; 1],
) -> u64
    ensures result_value { let u = universe_of axes bits frame_bits in
        let surfaces = surfaces_of rows.now balls.now in
        result ≡ (raw_of_one_answer u surfaces words.now out.old).refusal }
    ensures answer_after { let u = universe_of axes bits frame_bits in
        let surfaces = surfaces_of rows.now balls.now in
        answer.new ≡ length_array (raw_of_one_answer u surfaces words.now out.old) }
    ensures out_after { let u = universe_of axes bits frame_bits in
        let surfaces = surfaces_of rows.now balls.now in
        out.new ≡ raw_of_one_buffer u surfaces words.now out.old }
{
    let universe = universe_of(axes, bits, frame_bits);
    length_told(local::raw_of_one(universe, rows, balls, words, out), answer)
}

// The raw expression of two trees intersected.
pub fn durbizhan_raw_two(
    axes: u64,
    bits: u64,
    frame_bits: u64,
    rows: &[i64],
    balls: &[i64],
    first: &[u16],
    second: &[u16],
    out: &mut [u8],
    answer: &mut [u64; 1],
) -> u64
    ensures result_value { let u = universe_of axes bits frame_bits in
        let surfaces = surfaces_of rows.now balls.now in
        result ≡ (raw_of_two_answer u surfaces first.now second.now out.old).refusal }
    ensures answer_after { let u = universe_of axes bits frame_bits in
        let surfaces = surfaces_of rows.now balls.now in
        answer.new ≡ length_array (raw_of_two_answer u surfaces first.now second.now out.old) }
    ensures out_after { let u = universe_of axes bits frame_bits in
        let surfaces = surfaces_of rows.now balls.now in
        out.new ≡ raw_of_two_buffer u surfaces first.now second.now out.old }
{
    let universe = universe_of(axes, bits, frame_bits);
    length_told(
        local::raw_of_two(universe, rows, balls, first, second, out),
        answer,
    )
}

// The merged expression of one tree.
pub fn durbizhan_merged_one(
    axes: u64,
    bits: u64,
    frame_bits: u64,
    rows: &[i64],
    balls: &[i64],
    words: &[u16],
    out: &mut [u8],
    answer: &mut [u64; 1],
) -> u64
    ensures result_value { let u = universe_of axes bits frame_bits in
        let surfaces = surfaces_of rows.now balls.now in
        result ≡ (merged_of_one_answer u surfaces words.now out.old).refusal }
    ensures answer_after { let u = universe_of axes bits frame_bits in
        let surfaces = surfaces_of rows.now balls.now in
        answer.new ≡ length_array (merged_of_one_answer u surfaces words.now out.old) }
    ensures out_after { let u = universe_of axes bits frame_bits in
        let surfaces = surfaces_of rows.now balls.now in
        out.new ≡ merged_of_one_buffer u surfaces words.now out.old }
{
    let universe = universe_of(axes, bits, frame_bits);
    length_told(
        at_once::merged_of_one(universe, rows, balls, words, out),
        answer,
    )
}

// The merged expression of two trees intersected.
pub fn durbizhan_merged_two(
    axes: u64,
    bits: u64,
    frame_bits: u64,
    rows: &[i64],
    balls: &[i64],
    first: &[u16],
    second: &[u16],
    out: &mut [u8],
    answer: &mut [u64; 1],
) -> u64
    ensures result_value { let u = universe_of axes bits frame_bits in
        let surfaces = surfaces_of rows.now balls.now in
        result ≡ (merged_of_two_answer u surfaces first.now second.now out.old).refusal }
    ensures answer_after { let u = universe_of axes bits frame_bits in
        let surfaces = surfaces_of rows.now balls.now in
        answer.new ≡ length_array (merged_of_two_answer u surfaces first.now second.now out.old) }
    ensures out_after { let u = universe_of axes bits frame_bits in
        let surfaces = surfaces_of rows.now balls.now in
        out.new ≡ merged_of_two_buffer u surfaces first.now second.now out.old }
{
    let universe = universe_of(axes, bits, frame_bits);
    length_told(
        at_once::merged_of_two(universe, rows, balls, first, second, out),
        answer,
    )
}
