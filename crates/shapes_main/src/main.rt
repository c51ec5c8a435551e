// Shape files at both sides of every edge: a line for each answer, with every byte of the lent room, so that what was
// not to be written shows as the `.` it was.
#![tactic(auto)]

use std::io;
use std::io::Write;
use universe::Universe;

fn universe(axes: u64, bits: u64, frame_bits: u64) -> Universe {
    Universe {
        axes,
        bits,
        frame_bits,
    }
}

// A shape file read into the room lent.
fn read(to: &mut impl Write, label: &str, bytes: &[u8], room: &mut [u8]) -> io::Result<()> {
    let (refusal, shown, length) = match files::read_shape(bytes, room) {
        Ok(shape) => (0, shape.universe, shape.length),
        Err(unwritten) => (unwritten.number(), universe(0, 0, 0), unwritten.needed()),
    };
    let Universe {
        axes,
        bits,
        frame_bits,
    } = shown;
    write!(
        to,
        "{label}: {refusal} axes {axes} bits {bits} frame {frame_bits} symbols {length} "
    )?;
    to.write_all(room)?;
    writeln!(to)
}

// The same into room for ten symbols.
fn read_ten(to: &mut impl Write, label: &str, bytes: &[u8]) -> io::Result<()> {
    read(to, label, bytes, &mut [b'.'; 10])
}

// An expression written as a shape file into the room lent: the number, the length, then the bytes.
fn write(
    to: &mut impl Write,
    label: &str,
    universe: Universe,
    expression: &[u8],
    room: &mut [u8],
) -> io::Result<()> {
    let (refusal, length) = match files::write_shape(universe, expression, room) {
        Ok(written) => (0, written),
        Err(unwritten) => (unwritten.number(), unwritten.needed()),
    };
    write!(to, "{label}: {refusal} length {length}")?;
    bytes_of(to, room)?;
    writeln!(to)
}

// Mark, version, axes, bits, frame bits and count byte by byte, then the rest.
fn bytes_of(to: &mut impl Write, room: &[u8]) -> io::Result<()> {
    if 12 <= room.len() {
        for byte in &room[..12] {
            write!(to, " {byte}")?;
        }
        write!(to, " ")?;
        to.write_all(&room[12..])?;
    }
    Ok(())
}

// A shape file read into room for its symbols alone, and what was read written.
fn again(to: &mut impl Write, label: &str, bytes: &[u8], symbols: &mut [u8]) -> io::Result<()> {
    let read = match files::read_shape(bytes, symbols) {
        Ok(shape) => shape.universe,
        Err(_) => universe(0, 0, 0),
    };
    write(to, label, read, symbols, &mut [b'.'; 22])
}

// A file with one byte changed.
fn changed(to: &mut impl Write, file: &mut [u8], place: usize, byte: u8) -> io::Result<()> {
    if place < file.len() {
        file[place] = byte;
        write!(to, " byte {place} is {byte}")?;
        read(to, "", file, &mut [b'.'; 10])?;
    }
    Ok(())
}

// `(W(W(B(BW` at d 2, k 2, f 2, as version 2 has it.
fn second(to: &mut impl Write, place: usize, byte: u8) -> io::Result<()> {
    let mut file = *b"BNT\x02\x00\x02\x02\x02\x09\x00\x00\x00(W(W(B(BW";
    write!(to, "version 2,")?;
    changed(to, &mut file, place, byte)
}

// The same of version 1.
fn first(to: &mut impl Write, place: usize, byte: u8) -> io::Result<()> {
    let mut file = *b"BNT\x01\x00\x02\x02\x09\x00\x00\x00(W(W(B(BW";
    write!(to, "version 1,")?;
    changed(to, &mut file, place, byte)
}

// Each byte of the header one up, one down or far off: mark and version.
fn marks(to: &mut impl Write) -> io::Result<()> {
    for (place, byte) in [(0, 67), (1, 110), (2, 83), (3, 0), (3, 1), (3, 3), (4, 1)] {
        second(to, place, byte)?;
    }
    for (place, byte) in [(0, 67), (1, 110), (2, 83), (3, 0), (3, 2), (3, 3), (4, 1)] {
        first(to, place, byte)?;
    }
    Ok(())
}

// Axes, bits and frame bits.
fn universes(to: &mut impl Write) -> io::Result<()> {
    for (place, byte) in [
        (5, 0),
        (5, 1),
        (5, 4),
        (5, 5),
        (6, 1),
        (6, 10),
        (6, 11),
        (7, 1),
        (7, 12),
        (7, 13),
    ] {
        second(to, place, byte)?;
    }
    for (place, byte) in [(5, 0), (5, 1), (5, 4), (5, 5), (6, 1), (6, 10), (6, 11)] {
        first(to, place, byte)?;
    }
    Ok(())
}

// The count.
fn counts(to: &mut impl Write) -> io::Result<()> {
    for (place, byte) in [(8, 8), (8, 10), (9, 1), (10, 1), (11, 1)] {
        second(to, place, byte)?;
    }
    for (place, byte) in [(7, 8), (7, 10), (8, 1), (9, 1), (10, 1)] {
        first(to, place, byte)?;
    }
    Ok(())
}

// One axis has frame bits alone; version 1 says them as its bits, of which ten are the most.
fn one_axis(to: &mut impl Write) -> io::Result<()> {
    read_ten(
        to,
        "version 2, one axis, frame 12",
        b"BNT\x02\x00\x01\x00\x0c\x03\x00\x00\x00(WB",
    )?;
    read_ten(
        to,
        "version 2, one axis, frame 13",
        b"BNT\x02\x00\x01\x00\x0d\x03\x00\x00\x00(WB",
    )?;
    read_ten(
        to,
        "version 2, one axis, bits 1",
        b"BNT\x02\x00\x01\x01\x01\x03\x00\x00\x00(WB",
    )?;
    read_ten(
        to,
        "version 1, one axis, bits 10",
        b"BNT\x01\x00\x01\x0a\x03\x00\x00\x00(WB",
    )?;
    read_ten(
        to,
        "version 1, one axis, bits 11",
        b"BNT\x01\x00\x01\x0b\x03\x00\x00\x00(WB",
    )
}

// Symbols that are no expression.
fn bodies(to: &mut impl Write) -> io::Result<()> {
    for (place, byte) in [
        (12, b'B'),
        (16, b'W'),
        (18, b'B'),
        (19, b'W'),
        (20, b'('),
        (20, b'B'),
        (20, 0),
    ] {
        second(to, place, byte)?;
    }
    for (place, byte) in [(11, b'B'), (18, b'W'), (19, b'(')] {
        first(to, place, byte)?;
    }
    Ok(())
}

// Symbols that are no merged expression.
fn not_merged(to: &mut impl Write) -> io::Result<()> {
    let file: &[u8] = b"BNT\x02\x00\x02\x02\x02\x03\x00\x00\x00(BB";
    read_ten(to, "not merged", file)?;
    read_ten(
        to,
        "not merged, no universe",
        b"BNT\x02\x00\x05\x02\x02\x03\x00\x00\x00(BB",
    )?;
    read(to, "not merged, no room", file, &mut [b'.'; 2])
}

// Files with no whole header or no symbols.
fn second_headers(to: &mut impl Write) -> io::Result<()> {
    read_ten(to, "empty", b"")?;
    read_ten(to, "four bytes", b"BNT\x02")?;
    read_ten(
        to,
        "version 2, eleven bytes",
        b"BNT\x02\x00\x02\x02\x02\x00\x00\x00",
    )?;
    read_ten(
        to,
        "version 2, no symbols",
        b"BNT\x02\x00\x02\x02\x02\x00\x00\x00\x00",
    )
}

// Files too short or too long.
fn second_lengths(to: &mut impl Write) -> io::Result<()> {
    read_ten(
        to,
        "version 2, one symbol",
        b"BNT\x02\x00\x02\x02\x02\x01\x00\x00\x00B",
    )?;
    read_ten(
        to,
        "version 2, a byte short",
        b"BNT\x02\x00\x02\x02\x02\x09\x00\x00\x00(W(W(B(B",
    )?;
    read_ten(
        to,
        "version 2, a newline",
        b"BNT\x02\x00\x02\x02\x02\x09\x00\x00\x00(W(W(B(BW\n",
    )
}

// The same of version 1.
fn first_lengths(to: &mut impl Write) -> io::Result<()> {
    read_ten(
        to,
        "version 1, ten bytes",
        b"BNT\x01\x00\x02\x02\x00\x00\x00",
    )?;
    read_ten(
        to,
        "version 1, no symbols",
        b"BNT\x01\x00\x02\x02\x00\x00\x00\x00",
    )?;
    read_ten(
        to,
        "version 1, one symbol",
        b"BNT\x01\x00\x02\x02\x01\x00\x00\x00B",
    )?;
    read_ten(
        to,
        "version 1, a byte short",
        b"BNT\x01\x00\x02\x02\x09\x00\x00\x00(W(W(B(B",
    )?;
    read_ten(
        to,
        "version 1, a newline",
        b"BNT\x01\x00\x02\x02\x09\x00\x00\x00(W(W(B(BW\n",
    )
}

// Room for exactly what is read, one less, and none.
fn second_rooms(to: &mut impl Write) -> io::Result<()> {
    let file: &[u8] = b"BNT\x02\x00\x02\x02\x02\x09\x00\x00\x00(W(W(B(BW";
    read(to, "version 2, 9 lent", file, &mut [b'.'; 9])?;
    read(to, "version 2, 8 lent", file, &mut [b'.'; 8])?;
    read(to, "version 2, none lent", file, &mut [])
}

// The same of version 1, but none.
fn first_rooms(to: &mut impl Write) -> io::Result<()> {
    let file: &[u8] = b"BNT\x01\x00\x02\x02\x09\x00\x00\x00(W(W(B(BW";
    read(to, "version 1, 9 lent", file, &mut [b'.'; 9])?;
    read(to, "version 1, 8 lent", file, &mut [b'.'; 8])
}

// Room for exactly what is written, one less, and none.
fn write_rooms(to: &mut impl Write) -> io::Result<()> {
    let expression: &[u8] = b"(W(W(B(BW";
    write(
        to,
        "write, 22 lent",
        universe(2, 2, 2),
        expression,
        &mut [b'.'; 22],
    )?;
    write(
        to,
        "write, 21 lent",
        universe(2, 2, 2),
        expression,
        &mut [b'.'; 21],
    )?;
    write(
        to,
        "write, 20 lent",
        universe(2, 2, 2),
        expression,
        &mut [b'.'; 20],
    )?;
    write(
        to,
        "write, none lent",
        universe(2, 2, 2),
        expression,
        &mut [],
    )
}

// An expression written into room for a header and three symbols.
fn write_three(
    to: &mut impl Write,
    label: &str,
    universe: Universe,
    expression: &[u8],
) -> io::Result<()> {
    write(to, label, universe, expression, &mut [b'.'; 15])
}

// Universes at both sides of their upper limits.
fn write_universes(to: &mut impl Write) -> io::Result<()> {
    let not_merged: &[u8] = b"(BB";
    let black: &[u8] = b"B";
    write_three(to, "write at 4, 10, 12", universe(4, 10, 12), b"(BW")?;
    write_three(to, "write at axes 5", universe(5, 2, 2), not_merged)?;
    write_three(to, "write at bits 11", universe(2, 11, 2), not_merged)?;
    write_three(to, "write at frame 13", universe(2, 2, 13), not_merged)?;
    write_three(to, "write at frame 258", universe(2, 2, 258), black)?;
    write_three(to, "write at axes 257", universe(257, 0, 2), black)
}

// Universes of one axis, and of no bits or one.
fn write_small(to: &mut impl Write) -> io::Result<()> {
    let black: &[u8] = b"B";
    let halves: &[u8] = b"(BW";
    write_three(to, "write at one axis, bits 1", universe(1, 1, 1), black)?;
    write_three(
        to,
        "write at one axis, frame 12",
        universe(1, 0, 12),
        halves,
    )?;
    write(
        to,
        "write at no bits",
        universe(1, 0, 0),
        black,
        &mut [b'.'; 13],
    )?;
    write_three(to, "write at bits 0, frame 1", universe(2, 0, 1), halves)?;
    write_three(to, "write at bits 1, frame 0", universe(2, 1, 0), halves)
}

// Expressions that are refused.
fn write_bodies(to: &mut impl Write) -> io::Result<()> {
    write_three(to, "write one level too deep", universe(1, 0, 0), b"(BW")?;
    write_three(to, "write not merged", universe(2, 2, 2), b"(BB")?;
    write(
        to,
        "write not merged, no room",
        universe(2, 2, 2),
        b"(W(BB",
        &mut [],
    )?;
    write_three(to, "write no symbols", universe(2, 2, 2), b"")?;
    write_three(to, "write two expressions", universe(2, 2, 2), b"BB")
}

// What was read from either version is written as version 2.
fn round_trips(to: &mut impl Write) -> io::Result<()> {
    again(
        to,
        "version 2 again",
        b"BNT\x02\x00\x02\x03\x01\x09\x00\x00\x00(W(W(B(BW",
        &mut [b'.'; 9],
    )?;
    again(
        to,
        "version 1 again",
        b"BNT\x01\x00\x02\x02\x09\x00\x00\x00(W(W(B(BW",
        &mut [b'.'; 9],
    )?;
    again(
        to,
        "version 1 again, one axis",
        b"BNT\x01\x00\x01\x0a\x03\x00\x00\x00(WB",
        &mut [b'.'; 3],
    )
}

fn main(rt: HostRuntime) -> io::Result<()> {
    let to = &mut rt.stdout();
    read_ten(
        to,
        "version 2, whole",
        b"BNT\x02\x00\x02\x02\x02\x09\x00\x00\x00(W(W(B(BW",
    )?;
    read_ten(
        to,
        "version 1, whole",
        b"BNT\x01\x00\x02\x02\x09\x00\x00\x00(W(W(B(BW",
    )?;
    marks(to)?;
    universes(to)?;
    counts(to)?;
    one_axis(to)?;
    bodies(to)?;
    not_merged(to)?;
    second_headers(to)?;
    second_lengths(to)?;
    first_lengths(to)?;
    second_rooms(to)?;
    first_rooms(to)?;
    write_rooms(to)?;
    write_universes(to)?;
    write_small(to)?;
    write_bodies(to)?;
    round_trips(to)
}
