// The answers at once: the checks in their order, and then the whole universe.
ghost use Rattle.std.specs.Prelude.{◌≡◌};
ghost use Rattle.universe.specs.Told.{number_told};
ghost use Rattle.csg.specs.Surfaces.{surfaces_of};
ghost use Rattle.convert.specs.Answers.{clearance_refusal};
ghost use Rattle.at_once.specs.Answers.{verdict_at_once, ends_at_once};
ghost use Rattle.at_once.specs.Told.{judged_told, spanned_told};

use crate::answer::Ends;
use crate::whole::{whole_span, whole_verdict};
use bintree::Verdict;
use universe::{Refusal, Universe};

// Refused where a verdict of two trees over a window is: as their conversion, or with 9.
pub(crate) fn check_clearance(
    universe: Universe,
    rows: &[i64],
    balls: &[i64],
    first: &[u16],
    second: &[u16],
    first_frame: u64,
    last_frame: u64,
) -> Result<(), Refusal>
    ensures { let surfaces = surfaces_of rows.now balls.now in
        let first = first.entry.now in
        let second = second.entry.now in
        number_told result ≡ clearance_refusal universe surfaces first second first_frame last_frame }
{
    convert::check_scene(universe, rows, balls, first, second)?;
    universe.check_window(first_frame, last_frame)
}

// Whether two trees share space in a window, first to last frame, both ends in: Clear, or Hit with the first and the
// last frame that hold a black voxel and how many there are. No room is lent.
pub fn verdict_at_once(
    universe: Universe,
    rows: &[i64],
    balls: &[i64],
    first: &[u16],
    second: &[u16],
    first_frame: u64,
    last_frame: u64,
) -> Result<Verdict, Refusal>
    ensures { let surfaces = surfaces_of rows.now balls.now in
        let first = first.entry.now in
        let second = second.entry.now in
        judged_told result ≡ verdict_at_once universe surfaces first second first_frame last_frame }
{
    check_clearance(
        universe,
        rows,
        balls,
        first,
        second,
        first_frame,
        last_frame,
    )?;
    Ok(whole_verdict(
        universe,
        rows,
        balls,
        first,
        second,
        first_frame,
        last_frame,
    ))
}

// The first and the last frame of that verdict alone, where it is Hit.
pub fn ends_at_once(
    universe: Universe,
    rows: &[i64],
    balls: &[i64],
    first: &[u16],
    second: &[u16],
    first_frame: u64,
    last_frame: u64,
) -> Result<Option<Ends>, Refusal>
    ensures { let surfaces = surfaces_of rows.now balls.now in
        let first = first.entry.now in
        let second = second.entry.now in
        spanned_told result ≡ ends_at_once universe surfaces first second first_frame last_frame }
{
    check_clearance(
        universe,
        rows,
        balls,
        first,
        second,
        first_frame,
        last_frame,
    )?;
    Ok(whole_span(
        universe,
        rows,
        balls,
        first,
        second,
        first_frame,
        last_frame,
    ))
}
