// Sweeps run through the entry points: a line for each, with the refusal first, the universe that is answered, the
// length, and every byte of the lent room, so that what was not to be written shows as the `.` it was.
#![tactic(auto)]

use std::io;
use std::io::Write;
use sweep::Swept;
use universe::{Universe, Unwritten};

const LENT: usize = 20;

fn universe_of(axes: u64, bits: u64, frame_bits: u64) -> Universe {
    Universe {
        axes,
        bits,
        frame_bits,
    }
}

fn say(to: &mut impl Write, text: &[u8]) -> io::Result<()> {
    to.write_all(text)
}

fn number(to: &mut impl Write, n: u64) -> io::Result<()> {
    write!(to, "{n} ")
}

// A universe: axes, bits and frame bits.
fn say_universe(to: &mut impl Write, universe: Universe) -> io::Result<()> {
    number(to, universe.axes)?;
    number(to, universe.bits)?;
    number(to, universe.frame_bits)
}

// What a sweep tells: 0, the universe of what is written and its length; or the refusal, three zeros and what is needed.
fn say_answer(to: &mut impl Write, answer: Result<Swept, Unwritten>) -> io::Result<()> {
    match answer {
        Ok(swept) => {
            number(to, 0)?;
            say_universe(to, swept.universe)?;
            number(to, swept.length)
        }
        Err(unwritten) => {
            number(to, unwritten.number())?;
            say_universe(to, universe_of(0, 0, 0))?;
            number(to, unwritten.needed())
        }
    }
}

// An expression swept along an axis, into the room lent.
fn into_room(
    to: &mut impl Write,
    universe: Universe,
    expression: &[u8],
    axis: u64,
    room: &mut [u8],
) -> io::Result<()> {
    let answer = sweep::sweep_along(universe, expression, axis, room);
    say(to, expression)?;
    say(to, b" along ")?;
    number(to, axis)?;
    say(to, b": ")?;
    say_answer(to, answer)?;
    say(to, room)?;
    say(to, b"\n")
}

fn along(to: &mut impl Write, universe: Universe, expression: &[u8], axis: u64) -> io::Result<()> {
    let mut room = [b'.'; LENT];
    into_room(to, universe, expression, axis, &mut room)
}

// Along each axis that a universe may have, and the numbers before the first and after the last.
fn along_all(to: &mut impl Write, universe: Universe, expression: &[u8]) -> io::Result<()> {
    say_universe(to, universe)?;
    say(to, b"\n")?;
    along(to, universe, expression, 0)?;
    along(to, universe, expression, 1)?;
    along(to, universe, expression, 2)?;
    along(to, universe, expression, 3)?;
    along(to, universe, expression, 4)?;
    along(to, universe, expression, 5)
}

// A shape of each number of axes, with more frame bits than bits and with fewer; no bits along some axes or all.
fn shapes(to: &mut impl Write) -> io::Result<()> {
    along_all(to, universe_of(2, 1, 2), b"(((WB(WWW")?;
    along_all(to, universe_of(2, 2, 1), b"(((WW(BWW")?;
    along_all(to, universe_of(3, 1, 2), b"((((WW(WW(B(WWW")?;
    along_all(to, universe_of(3, 2, 1), b"(W(W((W(BW((WW(BW")?;
    along_all(to, universe_of(4, 1, 2), b"(((B((WW(WW(((WW(WBWW")?;
    along_all(to, universe_of(4, 2, 1), b"((W(((((WBW((WW(WW(((WW(WWB(BBW")?;
    along_all(to, universe_of(2, 0, 2), b"((WBW")?;
    along_all(to, universe_of(4, 0, 2), b"(W(BW")?;
    along_all(to, universe_of(3, 2, 0), b"(((WBW(B(WW")?;
    along_all(to, universe_of(2, 2, 0), b"((WB(WW")?;
    along_all(to, universe_of(3, 0, 0), b"B")?;
    along_all(to, universe_of(4, 1, 0), b"(((WW(WB((WW(WW")?;
    along_all(to, universe_of(1, 0, 2), b"(WB")
}

// The program's scene: both trees intersected, raw and merged; then 2 before 7 before 6, and room around the need.
fn edges(to: &mut impl Write) -> io::Result<()> {
    let square = universe_of(2, 2, 2);
    along(to, square, b"((WW(((WB(WW((BW(WW", 1)?;
    along(to, square, b"(W(((WBW((BWW", 1)?;
    along(to, square, b"(W", 0)?;
    along(to, square, b"(W", 1)?;
    along(to, universe_of(2, 11, 2), b"B", 1)?;
    along(to, universe_of(5, 1, 1), b"B", 1)?;
    let mut none = [b'.'; 0];
    into_room(to, square, b"(W(((WBW((BWW", 1, &mut none)?;
    let mut short = [b'.'; 6];
    into_room(to, square, b"(W(((WBW((BWW", 1, &mut short)?;
    let mut exact = [b'.'; 7];
    into_room(to, square, b"(W(((WBW((BWW", 1, &mut exact)
}

// Where a mover of the program's scene has ever been: its tree is converted, and what is written is swept.
fn mover(to: &mut impl Write, label: &[u8], rows: &[i64], words: &[u16]) -> io::Result<()> {
    let square = universe_of(2, 2, 2);
    let mut room = [b'.'; LENT];
    let written = convert::merged_of_one(square, rows, &[], words, &mut room);
    say(to, label)?;
    say(to, b"\n")?;
    if let Ok(length) = written
        && let Some(expression) = room.get(..length as usize)
    {
        along(to, square, expression, square.axes)?;
    }
    Ok(())
}

fn main(rt: HostRuntime) -> io::Result<()> {
    let to = &mut rt.stdout();
    shapes(to)?;
    edges(to)?;
    let rows = [
        0i64, 1, -1, 0, 0, 1, -1, 1, 0, 0, -2, 1, 0, 0, 0, 3, -1, 0, 0, 0,
    ];
    mover(to, b"moving", &rows, &[256, 257, 3])?;
    mover(to, b"standing", &rows, &[258, 259, 3])
}
