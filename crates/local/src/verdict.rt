// The verdict of two trees over a window of frames: they are converted, and the raw expression that was written is
// judged.
ghost use Rattle.std.specs.Prelude.{◌≡◌};
ghost use Rattle.csg.specs.Surfaces.{surfaces_of};
ghost use Rattle.convert.specs.Answers.{clearance_answer, clearance_buffer};
ghost use Rattle.convert.specs.Told.{clearance_told};

use crate::conversion::raw_of_two;
use convert::Clearance;
use universe::{Universe, Unwritten};

// Whether two trees share space in a window, first to last frame, both ends in; the raw expression of their
// intersection is written into lent room. The conversion checks the trees, so they are checked here only where the
// window is refused, which comes after them.
pub fn verdict_of_two(
    universe: Universe,
    rows: &[i64],
    balls: &[i64],
    first: &[u16],
    second: &[u16],
    first_frame: u64,
    last_frame: u64,
    out: &mut [u8],
) -> Result<Clearance, Unwritten>
    ensures result_value { let surfaces = surfaces_of rows.now balls.now in
        let first = first.entry.now in
        let second = second.entry.now in
        clearance_told result ≡ clearance_answer universe surfaces first second first_frame last_frame out.old }
    ensures out_after { let surfaces = surfaces_of rows.now balls.now in
        let first = first.entry.now in
        let second = second.entry.now in
        out.new
        ≡ clearance_buffer universe surfaces first second first_frame last_frame out.old }
{
    if let Err(refusal) = universe.check_window(first_frame, last_frame) {
        convert::check_scene(universe, rows, balls, first, second)?;
        return Err(Unwritten::Refused(refusal));
    }
    let length = raw_of_two(universe, rows, balls, first, second, out)?;
    let judged = bintree::numbers_of(universe, &out[..length as usize], first_frame, last_frame)?;
    Ok(Clearance {
        verdict: judged.verdict,
        length,
    })
}
