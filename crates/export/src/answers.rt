// Answers at once: the verdict of two trees over a window of frames, and its ends alone, with no room lent.
ghost use Rattle.std.specs.Prelude.{◌≡◌};
ghost use Rattle.csg.specs.Surfaces.{surfaces_of};
ghost use Rattle.at_once.specs.Answers.{verdict_at_once, ends_at_once};
ghost use Rattle.export.specs.Arrays.{universe_of, judged_array, ends_of, spanned_array};

use crate::universe_of;
use crate::verdicts::told_of;

// The ends of a verdict as three numbers: hit (0 Clear, 1 Hit), first frame, last frame.
#[derive(Clone, Copy)]
struct Ends {
    hit: u64,
    first: u64,
    last: u64,
}

fn ends_of(span: Option<at_once::Ends>) -> Ends
    ensures { result ≡ ends_of span }
{
    match span {
        None => Ends {
            hit: 0,
            first: 0,
            last: 0,
        },
        Some(ends) => Ends {
            hit: 1,
            first: ends.first,
            last: ends.last,
        },
    }
}

// Whether two trees share space in a window of frames, both ends in, with no room lent. Read the number first: a
// refused verdict is Clear.
pub fn durbizhan_verdict_at_once(
    axes: u64,
    bits: u64,
    frame_bits: u64,
    rows: &[i64],
    balls: &[i64],
    first: &[u16],
    second: &[u16],
    first_frame: u64,
    last_frame: u64,
    answer: &mut [u64; 4],
) -> u64
    ensures result_value { let u = universe_of axes bits frame_bits in
        let surfaces = surfaces_of rows.now balls.now in
        result ≡ (verdict_at_once u surfaces first.now second.now first_frame last_frame).refusal }
    ensures answer_after { let u = universe_of axes bits frame_bits in
        let surfaces = surfaces_of rows.now balls.now in
        answer.new ≡ judged_array (verdict_at_once u surfaces first.now second.now first_frame last_frame) }
{
    let universe = universe_of(axes, bits, frame_bits);
    match at_once::verdict_at_once(
        universe,
        rows,
        balls,
        first,
        second,
        first_frame,
        last_frame,
    ) {
        Ok(verdict) => {
            let told = told_of(verdict);
            *answer = [told.hit, told.first, told.last, told.voxels];
            0
        }
        Err(refusal) => {
            *answer = [0; 4];
            refusal.number()
        }
    }
}

// The first and the last frame of a window, both ends in, in which two trees share space, with no room lent. Read the
// number first: a refused answer is Clear.
pub fn durbizhan_ends_at_once(
    axes: u64,
    bits: u64,
    frame_bits: u64,
    rows: &[i64],
    balls: &[i64],
    first: &[u16],
    second: &[u16],
    first_frame: u64,
    last_frame: u64,
    answer: &mut [u64; 3],
) -> u64
    ensures result_value { let u = universe_of axes bits frame_bits in
        let surfaces = surfaces_of rows.now balls.now in
        result ≡ (ends_at_once u surfaces first.now second.now first_frame last_frame).refusal }
    ensures answer_after { let u = universe_of axes bits frame_bits in
        let surfaces = surfaces_of rows.now balls.now in
        answer.new ≡ spanned_array (ends_at_once u surfaces first.now second.now first_frame last_frame) }
{
    let universe = universe_of(axes, bits, frame_bits);
    match at_once::ends_at_once(
        universe,
        rows,
        balls,
        first,
        second,
        first_frame,
        last_frame,
    ) {
        Ok(span) => {
            let ends = ends_of(span);
            *answer = [ends.hit, ends.first, ends.last];
            0
        }
        Err(refusal) => {
            *answer = [0; 3];
            refusal.number()
        }
    }
}
