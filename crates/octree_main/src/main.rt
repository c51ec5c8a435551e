// Octrees exported and imported through the entry points: a line for each, with the refusal first, the length, and
// every byte of the lent room, so that what was not to be written shows as the `.` it was.
#![tactic(auto)]

use std::io;
use std::io::Write;
use universe::{Universe, Unwritten};

const LENT: usize = 20;

fn universe_of(axes: u64, bits: u64, frame_bits: u64) -> Universe {
    Universe {
        axes,
        bits,
        frame_bits,
    }
}

fn say(to: &mut impl Write, text: &[u8]) -> io::Result<()> {
    to.write_all(text)
}

fn number(to: &mut impl Write, n: u64) -> io::Result<()> {
    write!(to, "{n} ")
}

// What a call was lent and answered, and what it left: 0 and the length, or the refusal and what is needed.
fn told(
    to: &mut impl Write,
    lent: &[u8],
    answer: Result<u64, Unwritten>,
    room: &[u8],
) -> io::Result<()> {
    say(to, lent)?;
    say(to, b": ")?;
    match answer {
        Ok(length) => {
            number(to, 0)?;
            number(to, length)?;
        }
        Err(unwritten) => {
            number(to, unwritten.number())?;
            number(to, unwritten.needed())?;
        }
    }
    say(to, room)?;
    say(to, b"\n")
}

fn export_into(
    to: &mut impl Write,
    universe: Universe,
    expression: &[u8],
    room: &mut [u8],
) -> io::Result<()> {
    let answer = octree::export_octree(universe, expression, room);
    told(to, expression, answer, room)
}

fn import_into(
    to: &mut impl Write,
    universe: Universe,
    octree: &[u8],
    room: &mut [u8],
) -> io::Result<()> {
    let answer = octree::import_octree(universe, octree, room);
    told(to, octree, answer, room)
}

fn exported(to: &mut impl Write, universe: Universe, expression: &[u8]) -> io::Result<()> {
    let mut room = [b'.'; LENT];
    export_into(to, universe, expression, &mut room)
}

fn imported(to: &mut impl Write, universe: Universe, octree: &[u8]) -> io::Result<()> {
    let mut room = [b'.'; LENT];
    import_into(to, universe, octree, &mut room)
}

// No bits; then each single son full, both ways.
fn smallest(to: &mut impl Write) -> io::Result<()> {
    exported(to, universe_of(3, 0, 0), b"B")?;
    exported(to, universe_of(3, 0, 0), b"W")?;
    imported(to, universe_of(3, 0, 0), b"F")?;
    imported(to, universe_of(3, 0, 0), b"E")?;
    imported(to, universe_of(3, 1, 1), b"PFEEEEEEE")?;
    imported(to, universe_of(3, 1, 1), b"PEFEEEEEE")?;
    imported(to, universe_of(3, 1, 1), b"PEEFEEEEE")?;
    imported(to, universe_of(3, 1, 1), b"PEEEFEEEE")?;
    imported(to, universe_of(3, 1, 1), b"PEEEEFEEE")?;
    imported(to, universe_of(3, 1, 1), b"PEEEEEFEE")?;
    imported(to, universe_of(3, 1, 1), b"PEEEEEEFE")?;
    imported(to, universe_of(3, 1, 1), b"PEEEEEEEF")?;
    exported(to, universe_of(3, 1, 1), b"(((BWWW")?;
    exported(to, universe_of(3, 1, 1), b"(((WBWW")?;
    exported(to, universe_of(3, 1, 1), b"((W(BWW")?;
    exported(to, universe_of(3, 1, 1), b"((W(WBW")?;
    exported(to, universe_of(3, 1, 1), b"(W((BWW")?;
    exported(to, universe_of(3, 1, 1), b"(W((WBW")?;
    exported(to, universe_of(3, 1, 1), b"(W(W(BW")?;
    exported(to, universe_of(3, 1, 1), b"(W(W(WB")
}

// A leaf at each of the three levels of a triple, and two levels of cubes; raw and merged.
fn triples(to: &mut impl Write) -> io::Result<()> {
    exported(to, universe_of(3, 1, 1), b"B")?;
    exported(to, universe_of(3, 1, 1), b"(BW")?;
    exported(to, universe_of(3, 1, 1), b"((BWW")?;
    exported(to, universe_of(3, 1, 1), b"(((BWWW")?;
    exported(to, universe_of(3, 1, 1), b"(BB")?;
    exported(to, universe_of(3, 1, 1), b"(((WW(WWW")?;
    exported(to, universe_of(3, 2, 2), b"((((BBBBW")?;
    exported(to, universe_of(3, 2, 2), b"(((((BWWWWW")
}

// Octrees with a `P` whose sons are all alike.
fn unreduced(to: &mut impl Write) -> io::Result<()> {
    imported(to, universe_of(3, 1, 1), b"PFFFFFFFF")?;
    imported(to, universe_of(3, 1, 1), b"PEEEEEEEE")?;
    imported(to, universe_of(3, 2, 2), b"PPFFFFFFFFEEEEEEE")?;
    imported(to, universe_of(3, 2, 2), b"PFFFFFFFPFFFFFFFF")?;
    imported(to, universe_of(3, 2, 2), b"PPFEEEEEEEEEEEEEE")
}

// A `P` at the last level, seven sons, a symbol left over, nothing, and no symbol; 2 before 7.
fn refused(to: &mut impl Write) -> io::Result<()> {
    imported(to, universe_of(3, 0, 0), b"PFFFFFFFF")?;
    imported(to, universe_of(3, 1, 1), b"PPFFFFFFFFEEEEEEE")?;
    imported(to, universe_of(3, 1, 1), b"PFFFFFFF")?;
    imported(to, universe_of(3, 1, 1), b"PFFFFFFFFE")?;
    imported(to, universe_of(3, 1, 1), b"FF")?;
    imported(to, universe_of(3, 1, 1), b"")?;
    imported(to, universe_of(3, 1, 1), b"PFFFFBFFF")?;
    exported(to, universe_of(3, 1, 1), b"")?;
    exported(to, universe_of(3, 1, 1), b"(B")?;
    exported(to, universe_of(3, 1, 1), b"BB")?;
    exported(to, universe_of(3, 1, 1), b"((((BWWWW")?;
    exported(to, universe_of(2, 1, 1), b"(B")?;
    exported(to, universe_of(4, 1, 1), b"B")?;
    exported(to, universe_of(3, 1, 2), b"B")?;
    exported(to, universe_of(3, 11, 11), b"B")?;
    imported(to, universe_of(2, 1, 1), b"P")?;
    imported(to, universe_of(4, 1, 1), b"F")?;
    imported(to, universe_of(3, 2, 1), b"F")?;
    imported(to, universe_of(3, 11, 11), b"F")
}

// Room for one symbol fewer than are needed, and for exactly those.
fn rooms(to: &mut impl Write) -> io::Result<()> {
    let cube = universe_of(3, 1, 1);
    let mut none = [b'.'; 0];
    let mut eight = [b'.'; 8];
    let mut nine = [b'.'; 9];
    export_into(to, cube, b"(BW", &mut none)?;
    export_into(to, cube, b"(BW", &mut eight)?;
    export_into(to, cube, b"(BW", &mut nine)?;
    let mut six = [b'.'; 6];
    let mut seven = [b'.'; 7];
    import_into(to, cube, b"PFEEEEEEE", &mut none)?;
    import_into(to, cube, b"PFEEEEEEE", &mut six)?;
    import_into(to, cube, b"PFEEEEEEE", &mut seven)
}

fn main(rt: HostRuntime) -> io::Result<()> {
    let to = &mut rt.stdout();
    smallest(to)?;
    triples(to)?;
    unreduced(to)?;
    refused(to)?;
    rooms(to)
}
