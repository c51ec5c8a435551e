// How much of each frame of a window is black, over a list of expressions.
ghost use Rattle.std.specs.Prelude.{◌≡◌};
ghost use Rattle.report.specs.Reports.{report_answer, report_row};
ghost use Rattle.export.specs.Arrays.{universe_of, report_array};

use crate::universe_of;

// The black voxels of each frame of a window, both ends in, summed over a list of expressions, one straight after
// another: one count for each frame, at the front of the row that is lent.
pub fn durbizhan_report(
    axes: u64,
    bits: u64,
    frame_bits: u64,
    expressions: &[u8],
    first_frame: u64,
    last_frame: u64,
    counts: &mut [u64],
    answer: &mut [u64; 2],
) -> u64
    ensures result_value { let u = universe_of axes bits frame_bits in
        let row = counts.old in
        result ≡ (report_answer u expressions.now first_frame last_frame row).refusal }
    ensures answer_after { let u = universe_of axes bits frame_bits in
        let row = counts.old in
        let told = report_answer u expressions.now first_frame last_frame row in
        answer.new ≡ report_array told }
    ensures counts_after { let u = universe_of axes bits frame_bits in
        let row = counts.old in
        counts.new ≡ report_row u expressions.now first_frame last_frame row }
{
    let universe = universe_of(axes, bits, frame_bits);
    match report::report_of(universe, expressions, first_frame, last_frame, counts) {
        Ok(report) => {
            *answer = [report.frames, report.total];
            0
        }
        Err(unwritten) => {
            *answer = [unwritten.needed(), 0];
            unwritten.number()
        }
    }
}
