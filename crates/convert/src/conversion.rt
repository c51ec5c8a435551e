// The conversions: the checks, then the expression of two trees intersected, raw or merged.
ghost use Rattle.std.specs.Prelude.{◌≡◌};
ghost use Rattle.bintree.specs.Answers.{written_answer, written_buffer};
ghost use Rattle.bintree.specs.Told.{writing_told};
ghost use Rattle.csg.specs.Surfaces.{surfaces_of};
ghost use Rattle.convert.specs.Blocks.{Ready};
ghost use Rattle.convert.specs.Answers.{
  written_of_two,
  two_trees_refusal,
  raw_of_one_answer,
  raw_of_one_buffer,
  merged_of_one_answer,
  merged_of_one_buffer,
  raw_of_two_answer,
  raw_of_two_buffer,
  merged_of_two_answer,
  merged_of_two_buffer,
};

use crate::lay::write_whole;
use crate::scene::{check_scene, room_of};
use crate::scratch::{MOST_SCRATCH, SHORT, in_scratch};
use universe::{Universe, Unwritten};

// The expression of two trees that no check refuses. Room that is as large as the room formula says suffices.
pub(crate) fn written_of_two(
    universe: Universe,
    rows: &[i64],
    balls: &[i64],
    first: &[u16],
    second: &[u16],
    merging: bool,
    out: &mut [u8],
) -> Result<u64, Unwritten>
    requires { Ready universe (surfaces_of rows.now balls.now) first.now second.now }
    ensures result_value { let surfaces = surfaces_of rows.now balls.now in
        let written = written_of_two merging universe surfaces first.now second.now in
        writing_told result ≡ written_answer 0 out.old written }
    ensures out_after { let surfaces = surfaces_of rows.now balls.now in
        let written = written_of_two merging universe surfaces first.now second.now in
        out.new ≡ written_buffer 0 out.old written }
{
    if room_of(universe, first, second) <= out.len() as u64 {
        let length = write_whole(universe, rows, balls, first, second, merging, out);
        return Ok(length as u64);
    }
    if out.len() <= SHORT {
        return in_scratch::<SHORT>(universe, rows, balls, first, second, merging, out);
    }
    in_scratch::<MOST_SCRATCH>(universe, rows, balls, first, second, merging, out)
}

// The expression of two trees, or the number that refuses it.
fn of_two(
    universe: Universe,
    rows: &[i64],
    balls: &[i64],
    first: &[u16],
    second: &[u16],
    merging: bool,
    out: &mut [u8],
) -> Result<u64, Unwritten>
    ensures result_value { let surfaces = surfaces_of rows.now balls.now in
        let first = first.entry.now in
        let second = second.entry.now in
        let written = written_of_two merging universe surfaces first second in
        writing_told result ≡ written_answer (two_trees_refusal universe surfaces first second) out.old written }
    ensures out_after { let surfaces = surfaces_of rows.now balls.now in
        let first = first.entry.now in
        let second = second.entry.now in
        let written = written_of_two merging universe surfaces first second in
        out.new
        ≡ written_buffer (two_trees_refusal universe surfaces first second) out.old written }
{
    check_scene(universe, rows, balls, first, second)?;
    written_of_two(universe, rows, balls, first, second, merging, out)
}

// The raw expression of two trees intersected. Room that is as large as the room formula says suffices.
#[tactic(auto, unfolding(crate::specs::Answers::raw_of_two_answer, crate::specs::Answers::raw_of_two_buffer, crate::specs::Answers::raw_of_two, crate::specs::Answers::written_of_two, crate::specs::Shapes::shaped))]
pub fn raw_of_two(
    universe: Universe,
    rows: &[i64],
    balls: &[i64],
    first: &[u16],
    second: &[u16],
    out: &mut [u8],
) -> Result<u64, Unwritten>
    ensures result_value { let surfaces = surfaces_of rows.now balls.now in
        writing_told result ≡ raw_of_two_answer universe surfaces first.now second.now out.old }
    ensures out_after { let surfaces = surfaces_of rows.now balls.now in
        out.new
        ≡ raw_of_two_buffer universe surfaces first.now second.now out.old }
{
    of_two(universe, rows, balls, first, second, false, out)
}

// The merged expression of two trees intersected. Room that is as large as the room formula says suffices.
#[tactic(auto, unfolding(crate::specs::Answers::merged_of_two_answer, crate::specs::Answers::merged_of_two_buffer, crate::specs::Answers::merged_of_two, crate::specs::Answers::written_of_two, crate::specs::Shapes::shaped))]
pub fn merged_of_two(
    universe: Universe,
    rows: &[i64],
    balls: &[i64],
    first: &[u16],
    second: &[u16],
    out: &mut [u8],
) -> Result<u64, Unwritten>
    ensures result_value { let surfaces = surfaces_of rows.now balls.now in
        writing_told result ≡ merged_of_two_answer universe surfaces first.now second.now out.old }
    ensures out_after { let surfaces = surfaces_of rows.now balls.now in
        out.new
        ≡ merged_of_two_buffer universe surfaces first.now second.now out.old }
{
    of_two(universe, rows, balls, first, second, true, out)
}

// The raw expression of one tree: that tree intersected with BLACK.
pub fn raw_of_one(
    universe: Universe,
    rows: &[i64],
    balls: &[i64],
    words: &[u16],
    out: &mut [u8],
) -> Result<u64, Unwritten>
    ensures result_value { let surfaces = surfaces_of rows.now balls.now in
        writing_told result ≡ raw_of_one_answer universe surfaces words.now out.old }
    ensures out_after { let surfaces = surfaces_of rows.now balls.now in
        out.new ≡ raw_of_one_buffer universe surfaces words.now out.old }
{
    let black = [csg::BLACK];
    of_two(universe, rows, balls, words, &black, false, out)
}

// The merged expression of one tree: that tree intersected with BLACK.
pub fn merged_of_one(
    universe: Universe,
    rows: &[i64],
    balls: &[i64],
    words: &[u16],
    out: &mut [u8],
) -> Result<u64, Unwritten>
    ensures result_value { let surfaces = surfaces_of rows.now balls.now in
        writing_told result ≡ merged_of_one_answer universe surfaces words.now out.old }
    ensures out_after { let surfaces = surfaces_of rows.now balls.now in
        out.new ≡ merged_of_one_buffer universe surfaces words.now out.old }
{
    let black = [csg::BLACK];
    of_two(universe, rows, balls, words, &black, true, out)
}
