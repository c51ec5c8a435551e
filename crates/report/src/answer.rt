// The report: the checks in their order, and the row.
ghost use Rattle.std.specs.Prelude.{◌≡◌};
ghost use Rattle.universe.specs.Told.{number_told};
ghost use Rattle.report.specs.Reports.{report_refusal, report_answer, report_row};
ghost use Rattle.report.specs.Told.{report_told};

use crate::Report;
use crate::list::check_list;
use crate::row::fill_list;
use crate::window::Window;
use universe::{Refusal, Universe, Unwritten};

// Refused by the first of 2, 7 and 9.
fn check(universe: Universe, expressions: &[u8], first: u64, last: u64) -> Result<(), Refusal>
    ensures { number_told result ≡ report_refusal universe expressions.now first last }
{
    universe.check()?;
    check_list(universe, expressions)?;
    universe.check_window(first, last)
}

// How many black voxels each frame from first to last has, both ends in, summed over a list of expressions: one count
// for each frame, set from the row's front on, and their total. A refusal leaves the row as it was; with too short a row
// comes how many frames there are.
pub fn report_of(
    universe: Universe,
    expressions: &[u8],
    first: u64,
    last: u64,
    counts: &mut [u64],
) -> Result<Report, Unwritten>
    ensures result_value { let row = counts.old in
        report_told result ≡ report_answer universe expressions.now first last row }
    ensures counts_after { let row = counts.old in
        counts.new ≡ report_row universe expressions.now first last row }
{
    check(universe, expressions, first, last)?;
    let window = Window {
        universe,
        first,
        last,
    };
    let frames = window.frames();
    if counts.len() < frames {
        return Err(Unwritten::NoRoom(frames as u64));
    }
    fill_list(window, expressions, counts);
    Ok(Report {
        frames: frames as u64,
        total: counts[..frames].iter().sum(),
    })
}
