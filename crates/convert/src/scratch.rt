// Conversion by way of scratch room, where the room lent may not suffice: what is lent is left alone until it is known
// to.
ghost use Rattle.std.specs.Prelude.{◌≡◌, ◌^◌, ◌<◌};
ghost use Rattle.csg.specs.Surfaces.{surfaces_of};
ghost use Rattle.bintree.specs.Answers.{written_answer, written_buffer};
ghost use Rattle.bintree.specs.Told.{writing_told};
ghost use Rattle.convert.specs.Answers.{written_of_two};
ghost use Rattle.convert.specs.Blocks.{Ready};

use crate::lay::write_whole;
use universe::{Universe, Unwritten};

// Scratch room for where no more than this is lent.
pub(crate) const SHORT: usize = 4096;

// Scratch room for where more is lent; a longer expression is laid twice.
pub const MOST_SCRATCH: usize = 32_768;

// The expression is written into scratch room of so many symbols first, and again only where it is longer.
pub(crate) fn in_scratch<const ROOM: usize>(
    universe: Universe,
    rows: &[i64],
    balls: &[i64],
    first: &[u16],
    second: &[u16],
    merging: bool,
    out: &mut [u8],
) -> Result<u64, Unwritten>
    requires fact { Ready universe (surfaces_of rows.now balls.now) first.now second.now }
    requires room_bound { ROOM < 2 ^ 63 }
    ensures result_value { let surfaces = surfaces_of rows.now balls.now in
        let written = written_of_two merging universe surfaces first.now second.now in
        writing_told result ≡ written_answer 0 out.old written }
    ensures out_after { let surfaces = surfaces_of rows.now balls.now in
        let written = written_of_two merging universe surfaces first.now second.now in
        out.new ≡ written_buffer 0 out.old written }
{
    let mut scratch = [0u8; ROOM];
    let length = write_whole(universe, rows, balls, first, second, merging, &mut scratch);
    if out.len() < length {
        return Err(Unwritten::NoRoom(length as u64));
    }
    if length <= ROOM {
        bintree::copy(&scratch[..length], out, 0);
        return Ok(length as u64);
    }
    write_whole(universe, rows, balls, first, second, merging, out);
    Ok(length as u64)
}
