// Expressions asked through the entry points: a line for each answer, with the refusal first and every byte of the lent
// room, so that what was not to be written shows as the `.` it was.
#![tactic(auto)]

use bintree::{Colour, Numbers, Verdict};
use reader::Symbol;
use std::io;
use std::io::Write;
use universe::{Refusal, Universe};

const LENT: usize = 20;

// How many symbols each reader is asked for.
const STEPS: usize = 5;

// d 2, k 2, f 2.
fn square() -> Universe {
    Universe {
        axes: 2,
        bits: 2,
        frame_bits: 2,
    }
}

// The number of a check's answer.
fn number(checked: Result<(), Refusal>) -> u64 {
    match checked {
        Ok(()) => 0,
        Err(refusal) => refusal.number(),
    }
}

// The numbers of an expression over a window: refusal, volume, verdict.
fn numbers(
    to: &mut impl Write,
    universe: Universe,
    expression: &str,
    first_frame: u64,
    last_frame: u64,
) -> io::Result<()> {
    match bintree::numbers_of(universe, expression.as_bytes(), first_frame, last_frame) {
        Ok(Numbers { volume, verdict }) => match verdict {
            Verdict::Clear => write!(to, " numbers 0 {volume} clear"),
            Verdict::Hit(contact) => write!(
                to,
                " numbers 0 {volume} hit {} {} {}",
                contact.first, contact.last, contact.voxels
            ),
        },
        Err(refusal) => write!(to, " numbers {} 0 clear", refusal.number()),
    }
}

// The questions over an expression: well-formed, numbers, the colour at (3, 2) and (3, 3), merged, the part for a path.
fn questions(to: &mut impl Write, expression: &str, path: &[u8]) -> io::Result<()> {
    let symbols = expression.as_bytes();
    write!(
        to,
        "{expression} well-formed {}",
        number(bintree::well_formed(square(), symbols))
    )?;
    numbers(to, square(), expression, 0, 3)?;
    for voxel in [[3, 2, 0, 0], [3, 3, 0, 0], [4, 0, 0, 0], [0, 0, 1, 0]] {
        colour(to, symbols, voxel)?;
    }
    write!(
        to,
        " part {} ",
        number(bintree::check_part(square(), symbols, path))
    )?;
    to.write_all(bintree::part(square(), symbols, path))?;
    let mut room = [b'.'; LENT];
    match bintree::merge(square(), symbols, &mut room) {
        Ok(merged) => write!(to, "\n  merge 0 {} ", merged.length)?,
        Err(why) => write!(to, "\n  merge {} {} ", why.number(), why.needed())?,
    }
    to.write_all(&room)?;
    writeln!(to)
}

fn colour(
    to: &mut impl Write,
    symbols: &[u8],
    voxel: [u64; Universe::MOST_AXES as usize],
) -> io::Result<()> {
    match bintree::colour_at(square(), symbols, voxel) {
        Ok(Colour::Black) => write!(to, " colour 0 BLACK"),
        Ok(Colour::White) => write!(to, " colour 0 WHITE"),
        Err(refusal) => write!(to, " colour {} WHITE", refusal.number()),
    }
}

fn name(symbol: Option<Symbol>) -> &'static str {
    match symbol {
        Some(Symbol::Halved) => "(",
        Some(Symbol::Black) => "B",
        Some(Symbol::White) => "W",
        None => " End",
    }
}

// A reader: its number, its first symbol, and five symbols in turn.
fn read_on(to: &mut impl Write, universe: Universe, expression: &str) -> io::Result<()> {
    let symbols = expression.as_bytes();
    write!(
        to,
        "{expression} reader {} {} then ",
        number(reader::check(universe, symbols)),
        name(reader::first(universe, symbols))
    )?;
    let held = reader::held(universe, symbols);
    let mut place = 0;
    for _ in 0..STEPS {
        write!(to, "{}", name(reader::symbol_at(held, place)))?;
        place = reader::place_after(held, place);
    }
    writeln!(to)
}

// Readers of expressions that are taken, and that are refused 7 and 2.
fn readers(to: &mut impl Write) -> io::Result<()> {
    read_on(to, square(), "(BW")?;
    read_on(to, square(), "(B(WB")?;
    read_on(to, square(), "(B")?;
    read_on(to, Universe::with_equal_bits(0, 2), "B")
}

// Cases 3, 9 and 11: questions.
fn readings(to: &mut impl Write) -> io::Result<()> {
    questions(to, "(W(W((BB(BW", &[1, 1])?;
    questions(to, "(W(W(B(BW", &[1, 1, 1, 0])?;
    questions(to, "(BB", &[])?;
    questions(to, "(BB", &[2])
}

// Expressions that are refused, and paths of as many steps as there are levels and one more.
fn refused_readings(to: &mut impl Write) -> io::Result<()> {
    let root: &[u8] = &[];
    let black = "B";
    questions(to, "", root)?;
    questions(to, "(B", root)?;
    questions(to, "BB", root)?;
    questions(to, black, &[0, 1, 0, 1])?;
    questions(to, black, &[0, 1, 0, 1, 0])
}

// The numbers of an expression over a window, on a line.
fn over(
    to: &mut impl Write,
    universe: Universe,
    expression: &str,
    first_frame: u64,
    last_frame: u64,
) -> io::Result<()> {
    write!(
        to,
        "{} {} {} {expression} over {first_frame} {last_frame}",
        universe.axes, universe.bits, universe.frame_bits
    )?;
    numbers(to, universe, expression, first_frame, last_frame)?;
    writeln!(to)
}

// The same where every axis has so many bits.
fn equal(
    to: &mut impl Write,
    axes: u64,
    bits: u64,
    expression: &str,
    first_frame: u64,
    last_frame: u64,
) -> io::Result<()> {
    over(
        to,
        Universe::with_equal_bits(axes, bits),
        expression,
        first_frame,
        last_frame,
    )
}

// The same where there are so many frame bits.
fn framed(
    to: &mut impl Write,
    bits: u64,
    frame_bits: u64,
    expression: &str,
    first_frame: u64,
    last_frame: u64,
) -> io::Result<()> {
    let universe = Universe {
        axes: 2,
        bits,
        frame_bits,
    };
    over(to, universe, expression, first_frame, last_frame)
}

// Frames without space and space without frames, and used-up axes passed over.
fn long_shots(to: &mut impl Write) -> io::Result<()> {
    let last = "(W(WB";
    let slope = "(((BWW(B(BW";
    framed(to, 0, 2, last, 0, 3)?;
    framed(to, 2, 0, last, 0, 0)?;
    framed(to, 2, 0, last, 0, 1)?;
    framed(to, 1, 2, slope, 0, 3)?;
    framed(to, 1, 2, slope, 3, 3)?;
    framed(to, 1, 2, "(((BWW(B((BWW", 0, 3)?;
    framed(to, 2, 1, "((B(WBB", 1, 1)
}

// The last of 4,096 frames, and universes that are refused.
fn longest(to: &mut impl Write) -> io::Result<()> {
    let black = "B";
    framed(to, 10, 12, black, 4_095, 4_095)?;
    framed(to, 10, 12, black, 0, 4_096)?;
    framed(to, 10, 13, black, 0, 0)?;
    over(
        to,
        Universe {
            axes: 1,
            bits: 1,
            frame_bits: 1,
        },
        black,
        0,
        0,
    )
}

// Windows at both ends, and one with no black voxel.
fn windows(to: &mut impl Write) -> io::Result<()> {
    let slopes = "(((W(BWW(B((BWB";
    let corner = "(W(W(B(BW";
    equal(to, 2, 2, slopes, 0, 3)?;
    equal(to, 2, 2, slopes, 0, 0)?;
    equal(to, 2, 2, slopes, 3, 3)?;
    equal(to, 2, 2, "(W(W((BB(BW", 3, 3)?;
    equal(to, 2, 2, corner, 2, 2)?;
    equal(to, 2, 2, corner, 0, 1)
}

// No bits, one axis, the most voxels.
fn edges(to: &mut impl Write) -> io::Result<()> {
    let black = "B";
    let frames = "((WBB";
    equal(to, 4, 0, black, 0, 0)?;
    equal(to, 4, 0, "W", 0, 0)?;
    equal(to, 1, 2, frames, 0, 3)?;
    equal(to, 1, 2, frames, 0, 0)?;
    equal(to, 4, 10, black, 1_023, 1_023)
}

// 2, 7 and 9, each with another fault behind it.
fn refusals(to: &mut impl Write) -> io::Result<()> {
    let black = "B";
    let half = "(B";
    equal(to, 5, 2, half, 2, 1)?;
    equal(to, 2, 11, black, 2, 1)?;
    equal(to, 2, 2, half, 2, 1)?;
    equal(to, 2, 2, "BB", 0, 4)?;
    equal(to, 2, 2, black, 2, 1)?;
    equal(to, 2, 2, black, 0, 4)?;
    equal(to, 4, 0, black, 0, 1)
}

fn main(rt: HostRuntime) -> io::Result<()> {
    let to = &mut rt.stdout();
    readings(to)?;
    refused_readings(to)?;
    windows(to)?;
    edges(to)?;
    refusals(to)?;
    long_shots(to)?;
    longest(to)?;
    readers(to)
}
