// The verdict of two trees over a window of frames: they are converted, and the raw expression that was written is
// judged.
ghost use Rattle.std.specs.Prelude.{◌≡◌};
ghost use Rattle.csg.specs.Surfaces.{surfaces_of};
ghost use Rattle.convert.specs.Answers.{clearance_answer, clearance_buffer};
ghost use Rattle.convert.specs.Told.{clearance_told};

use crate::conversion::written_of_two;
use crate::scene::check_scene;
use bintree::Verdict;
use universe::{Universe, Unwritten};

// The verdict of two trees, and the length of the raw expression that was written for it.
#[derive(Clone, Copy, Debug, PartialEq, Eq)]
pub struct Clearance {
    pub verdict: Verdict,
    pub length: u64,
}

// Whether two trees share space in a window, first to last frame, both ends in; the raw expression of their
// intersection is written into lent room.
pub fn verdict_of_two(
    universe: Universe,
    rows: &[i64],
    balls: &[i64],
    first: &[u16],
    second: &[u16],
    first_frame: u64,
    last_frame: u64,
    out: &mut [u8],
) -> Result<Clearance, Unwritten>
    ensures result_value { let surfaces = surfaces_of rows.now balls.now in
        let first = first.entry.now in
        let second = second.entry.now in
        clearance_told result ≡ clearance_answer universe surfaces first second first_frame last_frame out.old }
    ensures out_after { let surfaces = surfaces_of rows.now balls.now in
        let first = first.entry.now in
        let second = second.entry.now in
        out.new
        ≡ clearance_buffer universe surfaces first second first_frame last_frame out.old }
{
    check_scene(universe, rows, balls, first, second)?;
    universe.check_window(first_frame, last_frame)?;
    let length = written_of_two(universe, rows, balls, first, second, false, out)?;
    let judged = bintree::numbers_of(universe, &out[..length as usize], first_frame, last_frame)?;
    Ok(Clearance {
        verdict: judged.verdict,
        length,
    })
}
