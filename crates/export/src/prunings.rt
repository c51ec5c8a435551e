// The pruned conversions of one tree and of two intersected, in lent work room.
ghost use Rattle.std.specs.Prelude.{◌≡◌};
ghost use Rattle.csg.specs.Surfaces.{surfaces_of};
ghost use Rattle.pruned.specs.Answers.{raw_of_one_answer, raw_of_one_buffer, raw_of_two_answer, raw_of_two_buffer};
ghost use Rattle.pruned.specs.Answers.{merged_of_one_answer, merged_of_one_buffer, merged_of_two_answer, merged_of_two_buffer};
ghost use Rattle.pruned.specs.Answers.{work_of_one, work_of_two};
ghost use Rattle.pruned.specs.Told.{conversion_told};
ghost use Rattle.export.specs.Arrays.{universe_of, conversion_array};

use crate::universe_of;
use pruned::{Conversion, Unconverted};

// The number with which a pruned conversion answers; whether work room is lacking, the length, or how much is needed,
// and the nodes looked at go into the array.
fn conversion_told(found: Result<Conversion, Unconverted>, answer: &mut [u64; 3]) -> u64
    ensures value { result ≡ (conversion_told found).refusal }
    ensures answer_after { answer.new ≡ conversion_array (conversion_told found) }
{
    match found {
        Ok(done) => {
            *answer = [0, done.length, done.looked];
            0
        }
        Err(unconverted) => {
            *answer = [u64::from(unconverted.lacks_work()), unconverted.needed(), 0];
            unconverted.number()
        }
    }
}

// The raw expression of one tree, pruned; three numbers of work room for a node.
pub fn durbizhan_pruned_raw_one(
    axes: u64,
    bits: u64,
    frame_bits: u64,
    rows: &[i64],
    balls: &[i64],
    words: &[u16],
    work: &mut [i64],
    out: &mut [u8],
    answer: &mut [u64; 3],
) -> u64
    ensures result_value { let u = universe_of axes bits frame_bits in
        let surfaces = surfaces_of rows.now balls.now in
        result ≡ (raw_of_one_answer u surfaces words.now work.old out.old).refusal }
    ensures answer_after { let u = universe_of axes bits frame_bits in
        let surfaces = surfaces_of rows.now balls.now in
        answer.new
        ≡ conversion_array (raw_of_one_answer u surfaces words.now work.old out.old) }
    ensures out_after { let u = universe_of axes bits frame_bits in
        let surfaces = surfaces_of rows.now balls.now in
        out.new ≡ raw_of_one_buffer u surfaces words.now work.old out.old }
    ensures work_kept { let u = universe_of axes bits frame_bits in
        let surfaces = surfaces_of rows.now balls.now in
        ((work_of_one u surfaces words.now work.old ≡ 0 → ⊥) → work.new ≡ work.old) }
{
    let universe = universe_of(axes, bits, frame_bits);
    let found = pruned::raw_of_one(universe, rows, balls, words, work, out);
    conversion_told(found, answer)
}

// The raw expression of two trees intersected, pruned; three numbers of work room for a node.
pub fn durbizhan_pruned_raw_two(
    axes: u64,
    bits: u64,
    frame_bits: u64,
    rows: &[i64],
    balls: &[i64],
    first: &[u16],
    second: &[u16],
    work: &mut [i64],
    out: &mut [u8],
    answer: &mut [u64; 3],
) -> u64
    ensures result_value { let u = universe_of axes bits frame_bits in
        let surfaces = surfaces_of rows.now balls.now in
        result ≡ (raw_of_two_answer u surfaces first.now second.now work.old out.old).refusal }
    ensures answer_after { let u = universe_of axes bits frame_bits in
        let surfaces = surfaces_of rows.now balls.now in
        answer.new
        ≡ conversion_array (raw_of_two_answer u surfaces first.now second.now work.old out.old) }
    ensures out_after { let u = universe_of axes bits frame_bits in
        let surfaces = surfaces_of rows.now balls.now in
        out.new ≡ raw_of_two_buffer u surfaces first.now second.now work.old out.old }
    ensures work_kept { let u = universe_of axes bits frame_bits in
        let surfaces = surfaces_of rows.now balls.now in
        ((work_of_two u surfaces first.now second.now work.old ≡ 0 → ⊥) → work.new ≡ work.old) }
{
    let universe = universe_of(axes, bits, frame_bits);
    let found = pruned::raw_of_two(universe, rows, balls, first, second, work, out);
    conversion_told(found, answer)
}

// The merged expression of one tree, pruned; three numbers of work room for a node.
pub fn durbizhan_pruned_merged_one(
    axes: u64,
    bits: u64,
    frame_bits: u64,
    rows: &[i64],
    balls: &[i64],
    words: &[u16],
    work: &mut [i64],
    out: &mut [u8],
    answer: &mut [u64; 3],
) -> u64
    ensures result_value { let u = universe_of axes bits frame_bits in
        let surfaces = surfaces_of rows.now balls.now in
        result ≡ (merged_of_one_answer u surfaces words.now work.old out.old).refusal }
    ensures answer_after { let u = universe_of axes bits frame_bits in
        let surfaces = surfaces_of rows.now balls.now in
        answer.new
        ≡ conversion_array (merged_of_one_answer u surfaces words.now work.old out.old) }
    ensures out_after { let u = universe_of axes bits frame_bits in
        let surfaces = surfaces_of rows.now balls.now in
        out.new ≡ merged_of_one_buffer u surfaces words.now work.old out.old }
    ensures work_kept { let u = universe_of axes bits frame_bits in
        let surfaces = surfaces_of rows.now balls.now in
        ((work_of_one u surfaces words.now work.old ≡ 0 → ⊥) → work.new ≡ work.old) }
{
    let universe = universe_of(axes, bits, frame_bits);
    let found = pruned::merged_of_one(universe, rows, balls, words, work, out);
    conversion_told(found, answer)
}

// The merged expression of two trees intersected, pruned; three numbers of work room for a node.
pub fn durbizhan_pruned_merged_two(
    axes: u64,
    bits: u64,
    frame_bits: u64,
    rows: &[i64],
    balls: &[i64],
    first: &[u16],
    second: &[u16],
    work: &mut [i64],
    out: &mut [u8],
    answer: &mut [u64; 3],
) -> u64
    ensures result_value { let u = universe_of axes bits frame_bits in
        let surfaces = surfaces_of rows.now balls.now in
        result ≡ (merged_of_two_answer u surfaces first.now second.now work.old out.old).refusal }
    ensures answer_after { let u = universe_of axes bits frame_bits in
        let surfaces = surfaces_of rows.now balls.now in
        answer.new
        ≡ conversion_array (merged_of_two_answer u surfaces first.now second.now work.old out.old) }
    ensures out_after { let u = universe_of axes bits frame_bits in
        let surfaces = surfaces_of rows.now balls.now in
        out.new ≡ merged_of_two_buffer u surfaces first.now second.now work.old out.old }
    ensures work_kept { let u = universe_of axes bits frame_bits in
        let surfaces = surfaces_of rows.now balls.now in
        ((work_of_two u surfaces first.now second.now work.old ≡ 0 → ⊥) → work.new ≡ work.old) }
{
    let universe = universe_of(axes, bits, frame_bits);
    let found = pruned::merged_of_two(universe, rows, balls, first, second, work, out);
    conversion_told(found, answer)
}
