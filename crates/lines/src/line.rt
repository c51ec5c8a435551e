// The lines, each behind what stands before it. A line is as long as its words and at most 20 digits for each number.
ghost use Rattle.std.specs.Prelude.{◌+◌, ◌*◌, ◌≤◌};
ghost use Rattle.lines.specs.Lines.{refused_line, short_line, bits_of, universe_line, counts_line, contact_line};
ghost use Rattle.lines.specs.Lines.{verdict_line};
ghost use Rattle.lines.specs.Told.{three_lines, lines_told};
ghost use Rattle.lines.specs.Appended.{most_digits, most_bytes, Appended};
ghost use Rattle.universe.specs.Told.{number_of};

use crate::append::{MOST_BYTES, append_labelled, append_text};
use bintree::{Contact, Verdict};
use files::FIRST_VERSION;
use universe::{Refusal, Universe, Unwritten};

// What the three lines of a scene say that was read and judged.
#[derive(Clone, Copy)]
pub(crate) struct Judged {
    pub version: u64,
    pub universe: Universe,
    pub leaves: u64,
    pub raw: u64,
    pub room: u64,
    pub verdict: Verdict,
}

// The line of a refusal.
fn write_refused(refusal: Refusal, out: &mut [u8; MOST_BYTES]) -> usize
    ensures { let line = refused_line (number_of refusal) in
        Appended most_bytes out.old 0 line out.new result }
{
    let next = append_labelled(b"refused ", refusal.number(), out, 0);
    append_text(b"\n", out, next)
}

// The line of a refusal for room.
fn write_short(needed: u64, out: &mut [u8; MOST_BYTES]) -> usize
    ensures { Appended most_bytes out.old 0 (short_line needed) out.new result }
{
    let next = append_labelled(b"refused ", Unwritten::NO_ROOM, out, 0);
    let end = append_labelled(b" needed ", needed, out, next);
    append_text(b"\n", out, end)
}

// The bits that line 1 says of a scene of a version: of the first version those of each axis.
fn append_bits(version: u64, universe: Universe, out: &mut [u8; MOST_BYTES], at: usize) -> usize
    requires { at + (13 + 2 * most_digits) ≤ most_bytes }
    ensures { let bits = bits_of version universe in
        Appended (13 + 2 * most_digits) out.old at bits out.new result }
{
    if version == FIRST_VERSION {
        return append_labelled(b" bits ", universe.frame_bits, out, at);
    }
    let frame = append_labelled(b" bits ", universe.bits, out, at);
    append_labelled(b" frame ", universe.frame_bits, out, frame)
}

// Line 1.
fn append_universe(version: u64, universe: Universe, out: &mut [u8; MOST_BYTES]) -> usize
    ensures { let line = universe_line version universe in
        Appended (19 + 3 * most_digits) out.old 0 line out.new result }
{
    let bits = append_labelled(b"axes ", universe.axes, out, 0);
    let end = append_bits(version, universe, out, bits);
    append_text(b"\n", out, end)
}

// Line 2.
fn append_counts(leaves: u64, raw: u64, room: u64, out: &mut [u8; MOST_BYTES], at: usize) -> usize
    requires { at + (19 + 3 * most_digits) ≤ most_bytes }
    ensures { let line = counts_line leaves raw room in
        Appended (19 + 3 * most_digits) out.old at line out.new result }
{
    let lengths = append_labelled(b"leaves ", leaves, out, at);
    let rooms = append_labelled(b" raw ", raw, out, lengths);
    let end = append_labelled(b" room ", room, out, rooms);
    append_text(b"\n", out, end)
}

// Line 3 of a hit.
fn append_contact(contact: Contact, out: &mut [u8; MOST_BYTES], at: usize) -> usize
    requires { at + (25 + 3 * most_digits) ≤ most_bytes }
    ensures { Appended (25 + 3 * most_digits) out.old at (contact_line contact) out.new result }
{
    let last = append_labelled(b"hit first ", contact.first, out, at);
    let voxels = append_labelled(b" last ", contact.last, out, last);
    let end = append_labelled(b" voxels ", contact.voxels, out, voxels);
    append_text(b"\n", out, end)
}

// Line 3.
fn append_verdict(verdict: Verdict, out: &mut [u8; MOST_BYTES], at: usize) -> usize
    requires { at + (25 + 3 * most_digits) ≤ most_bytes }
    ensures { Appended (25 + 3 * most_digits) out.old at (verdict_line verdict) out.new result }
{
    match verdict {
        Verdict::Clear => append_text(b"clear\n", out, at),
        Verdict::Hit(contact) => append_contact(contact, out, at),
    }
}

// The three lines.
fn write_three(judged: Judged, out: &mut [u8; MOST_BYTES]) -> usize
    ensures { Appended most_bytes out.old 0 (three_lines judged) out.new result }
{
    let Judged {
        version,
        universe,
        leaves,
        raw,
        room,
        verdict,
    } = judged;
    let counts = append_universe(version, universe, out);
    let third = append_counts(leaves, raw, room, out, counts);
    append_verdict(verdict, out, third)
}

// The lines of a scene that is judged, or the one line of what refuses it.
pub(crate) fn write_lines(judged: Result<Judged, Unwritten>, out: &mut [u8; MOST_BYTES]) -> usize
    ensures { Appended most_bytes out.old 0 (lines_told judged) out.new result }
{
    match judged {
        Ok(judged) => write_three(judged, out),
        Err(Unwritten::NoRoom(needed)) => write_short(needed, out),
        Err(Unwritten::Refused(refusal)) => write_refused(refusal, out),
    }
}
