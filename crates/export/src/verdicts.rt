// Verdicts over a window of frames: of two trees, with sure and possible contact, and of a lent expression with its
// volume.
ghost use Rattle.std.specs.Prelude.{◌≡◌};
ghost use Rattle.csg.specs.Surfaces.{surfaces_of};
ghost use Rattle.bintree.specs.Verdicts.{numbers_answer};
ghost use Rattle.convert.specs.Told.{clearance_told};
ghost use Rattle.convert.specs.Answers.{clearance_answer, clearance_buffer};
ghost use Rattle.at_once.specs.Contacts.{contacts_answer};
ghost use Rattle.export.specs.Arrays.{universe_of, told_of, clearance_array, contacts_array, numbers_array};

use crate::universe_of;
use bintree::Verdict;
use convert::Clearance;
use universe::Unwritten;

// A verdict as four numbers: hit (0 Clear, 1 Hit), first frame, last frame, voxels.
#[derive(Clone, Copy)]
pub(crate) struct Told {
    pub(crate) hit: u64,
    pub(crate) first: u64,
    pub(crate) last: u64,
    pub(crate) voxels: u64,
}

pub(crate) fn told_of(verdict: Verdict) -> Told
    ensures { result ≡ told_of verdict }
{
    match verdict {
        Verdict::Clear => Told {
            hit: 0,
            first: 0,
            last: 0,
            voxels: 0,
        },
        Verdict::Hit(contact) => Told {
            hit: 1,
            first: contact.first,
            last: contact.last,
            voxels: contact.voxels,
        },
    }
}

// The number with which a verdict that needs room answers; its four numbers, and its length or how much is needed, go
// into the array.
pub(crate) fn clearance_told(found: Result<Clearance, Unwritten>, answer: &mut [u64; 5]) -> u64
    ensures value { result ≡ (clearance_told found).refusal }
    ensures answer_after { answer.new ≡ clearance_array (clearance_told found) }
{
    match found {
        Ok(clearance) => {
            let told = told_of(clearance.verdict);
            *answer = [
                told.hit,
                told.first,
                told.last,
                told.voxels,
                clearance.length,
            ];
            0
        }
        Err(unwritten) => {
            *answer = [0, 0, 0, 0, unwritten.needed()];
            unwritten.number()
        }
    }
}

// Whether two trees share space in a window of frames, both ends in; their raw expression is written into lent room.
// Read the number first: a refused verdict is Clear.
pub fn durbizhan_verdict(
    axes: u64,
    bits: u64,
    frame_bits: u64,
    rows: &[i64],
    balls: &[i64],
    first: &[u16],
    second: &[u16],
    first_frame: u64,
    last_frame: u64,
    out: &mut [u8],
    answer: &mut [u64; 5],
) -> u64
    ensures result_value { let u = universe_of axes bits frame_bits in
        let surfaces = surfaces_of rows.now balls.now in
        result ≡ (clearance_answer u surfaces first.now second.now first_frame last_frame out.old).refusal }
    ensures answer_after { let u = universe_of axes bits frame_bits in
        let surfaces = surfaces_of rows.now balls.now in
        answer.new
        ≡ clearance_array (clearance_answer u surfaces first.now second.now first_frame last_frame out.old) }
    ensures out_after { let u = universe_of axes bits frame_bits in
        let surfaces = surfaces_of rows.now balls.now in
        out.new
        ≡ clearance_buffer u surfaces first.now second.now first_frame last_frame out.old }
{
    let universe = universe_of(axes, bits, frame_bits);
    let found = local::verdict_of_two(
        universe,
        rows,
        balls,
        first,
        second,
        first_frame,
        last_frame,
        out,
    );
    clearance_told(found, answer)
}

// The voxels of a window of frames, both ends in, that two trees surely share, share at their centres, and possibly
// share.
pub fn durbizhan_contacts(
    axes: u64,
    bits: u64,
    frame_bits: u64,
    rows: &[i64],
    balls: &[i64],
    first: &[u16],
    second: &[u16],
    first_frame: u64,
    last_frame: u64,
    answer: &mut [u64; 3],
) -> u64
    ensures result_value { let u = universe_of axes bits frame_bits in
        let surfaces = surfaces_of rows.now balls.now in
        result ≡ (contacts_answer u surfaces first.now second.now first_frame last_frame).refusal }
    ensures answer_after { let u = universe_of axes bits frame_bits in
        let surfaces = surfaces_of rows.now balls.now in
        answer.new ≡ contacts_array (contacts_answer u surfaces first.now second.now first_frame last_frame) }
{
    let universe = universe_of(axes, bits, frame_bits);
    match at_once::contacts_of_two(
        universe,
        rows,
        balls,
        first,
        second,
        first_frame,
        last_frame,
    ) {
        Ok(found) => {
            *answer = [found.sure, found.centre, found.possible];
            0
        }
        Err(refusal) => {
            *answer = [0; 3];
            refusal.number()
        }
    }
}

// The black voxels of an expression in the whole universe, and whether it has one in a window of frames, both ends in.
// Read the number first: a refused verdict is Clear.
pub fn durbizhan_numbers(
    axes: u64,
    bits: u64,
    frame_bits: u64,
    expression: &[u8],
    first_frame: u64,
    last_frame: u64,
    answer: &mut [u64; 5],
) -> u64
    ensures result_value { let u = universe_of axes bits frame_bits in
        result ≡ (numbers_answer u expression.now first_frame last_frame).refusal }
    ensures answer_after { let u = universe_of axes bits frame_bits in
        let numbers = numbers_answer u expression.now first_frame last_frame in
        answer.new ≡ numbers_array numbers }
{
    let universe = universe_of(axes, bits, frame_bits);
    match bintree::numbers_of(universe, expression, first_frame, last_frame) {
        Ok(numbers) => {
            let told = told_of(numbers.verdict);
            *answer = [numbers.volume, told.hit, told.first, told.last, told.voxels];
            0
        }
        Err(refusal) => {
            *answer = [0; 5];
            refusal.number()
        }
    }
}
