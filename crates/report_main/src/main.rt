// Reports at both sides of every edge: a line for each answer, with every place of the lent row, so that what was not
// to be set shows as the 9 it was.
#![tactic(auto)]

use report::Report;
use std::io;
use std::io::Write;
use universe::{Universe, Unwritten};

// The frames of d 2, k 2.
const FRAMES: usize = 4;

fn say(to: &mut impl Write, text: &[u8]) -> io::Result<()> {
    to.write_all(text)
}

// A word and a number.
fn tell(to: &mut impl Write, word: &[u8], n: u64) -> io::Result<()> {
    say(to, word)?;
    write!(to, "{n}")
}

fn count(to: &mut impl Write, n: u64) -> io::Result<()> {
    tell(to, b" ", n)
}

// The counts of a row.
fn row(to: &mut impl Write, counts: &[u64]) -> io::Result<()> {
    for n in counts {
        count(to, *n)?;
    }
    Ok(())
}

// What a report tells: 0, how many frames there are and the total; or the refusal, how many are needed and 0.
fn tell_answer(to: &mut impl Write, answer: Result<Report, Unwritten>) -> io::Result<()> {
    match answer {
        Ok(report) => {
            tell(to, b": ", 0)?;
            tell(to, b" frames ", report.frames)?;
            tell(to, b" total ", report.total)
        }
        Err(unwritten) => {
            tell(to, b": ", unwritten.number())?;
            tell(to, b" frames ", unwritten.needed())?;
            tell(to, b" total ", 0)
        }
    }
}

// A report over a window in the row lent, where every axis has so many bits, on a line.
fn over(
    to: &mut impl Write,
    label: &[u8],
    axes: u64,
    bits: u64,
    expressions: &[u8],
    first_frame: u64,
    last_frame: u64,
    counts: &mut [u64],
) -> io::Result<()> {
    let universe = Universe::with_equal_bits(axes, bits);
    let answer = report::report_of(universe, expressions, first_frame, last_frame, counts);
    say(to, label)?;
    tell(to, b", ", first_frame)?;
    tell(to, b" to ", last_frame)?;
    tell_answer(to, answer)?;
    say(to, b" row")?;
    row(to, counts)?;
    say(to, b"\n")
}

// The same at d 2, k 2.
fn square(
    to: &mut impl Write,
    label: &[u8],
    expressions: &[u8],
    first_frame: u64,
    last_frame: u64,
    counts: &mut [u64],
) -> io::Result<()> {
    over(
        to,
        label,
        2,
        2,
        expressions,
        first_frame,
        last_frame,
        counts,
    )
}

// The same over every frame, in a row that fits.
fn whole(to: &mut impl Write, label: &[u8], expressions: &[u8]) -> io::Result<()> {
    square(to, label, expressions, 0, 3, &mut [9; FRAMES])
}

// One frame of one voxel.
fn voxel(to: &mut impl Write, label: &[u8], expressions: &[u8]) -> io::Result<()> {
    over(to, label, 1, 0, expressions, 0, 0, &mut [9; 1])
}

// Lists of no expression, of as many as there may be and one more.
fn lists(to: &mut impl Write) -> io::Result<()> {
    whole(to, b"the empty list", b"")?;
    voxel(to, b"256 of one symbol", &[b'B'; 256])?;
    voxel(to, b"257 of one symbol", &[b'B'; 257])
}

// Lists of the program's scene, and of two that differ; the most voxels.
fn scenes(to: &mut impl Write) -> io::Result<()> {
    whole(to, b"the scene", b"(W(((WBW((BWW")?;
    whole(to, b"the scene twice", b"(W(((WBW((BWW(W(((WBW((BWW")?;
    whole(
        to,
        b"the scene and a slope",
        b"(W(((WBW((BWW(((W(BWW(B((BWB",
    )?;
    whole(to, b"rubbish behind the scene", b"(W(((WBW((BWW)")?;
    whole(to, b"half a tree behind the scene", b"(W(((WBW((BWW(W")?;
    over(
        to,
        b"the most voxels",
        4,
        10,
        &[b'B'; 256],
        1_022,
        1_023,
        &mut [9; 2],
    )
}

// As many expressions as there may be, all black, over every frame of the largest universe: the greatest total.
fn most(to: &mut impl Write) -> io::Result<()> {
    let universe = Universe {
        axes: Universe::MOST_AXES,
        bits: Universe::MOST_BITS,
        frame_bits: Universe::MOST_FRAME_BITS,
    };
    let mut counts = [9u64; Universe::LONGEST_SIDE as usize];
    let last = Universe::LONGEST_SIDE - 1;
    let answer = report::report_of(universe, &[b'B'; 256], 0, last, &mut counts);
    say(to, b"all of the largest universe")?;
    tell_answer(to, answer)?;
    tell(to, b" first ", counts[0])?;
    tell(to, b" last ", counts[last as usize])?;
    say(to, b"\n")
}

// A slope over a window in the row lent.
fn slope(
    to: &mut impl Write,
    first_frame: u64,
    last_frame: u64,
    counts: &mut [u64],
) -> io::Result<()> {
    square(
        to,
        b"a slope",
        b"(((W(BWW(B((BWB",
        first_frame,
        last_frame,
        counts,
    )
}

// One frame at each end and two inside; a row that fits, one place short and one too long.
fn windows(to: &mut impl Write) -> io::Result<()> {
    slope(to, 0, 0, &mut [9; 1])?;
    slope(to, 3, 3, &mut [9; 1])?;
    slope(to, 1, 2, &mut [9; 2])?;
    slope(to, 0, 3, &mut [9; FRAMES - 1])?;
    slope(to, 0, 3, &mut [9; FRAMES])?;
    slope(to, 0, 3, &mut [9; FRAMES + 1])
}

// A report where no row is lent.
fn rowless(
    to: &mut impl Write,
    label: &[u8],
    axes: u64,
    expressions: &[u8],
    first_frame: u64,
    last_frame: u64,
) -> io::Result<()> {
    over(
        to,
        label,
        axes,
        2,
        expressions,
        first_frame,
        last_frame,
        &mut [9; 0],
    )
}

// 2, 7 and 9, each with another fault behind it.
fn refusals(to: &mut impl Write) -> io::Result<()> {
    let half: &[u8] = b"(B";
    rowless(to, b"five axes", 5, half, 2, 1)?;
    rowless(to, b"half a tree", 2, half, 2, 1)?;
    rowless(to, b"a frame too many", 2, b"B", 0, 4)
}

// The empty list has 2 and 9 too, and 6.
fn refused_lists(to: &mut impl Write) -> io::Result<()> {
    let label: &[u8] = b"the empty list";
    let none: &[u8] = b"";
    rowless(to, label, 5, none, 2, 1)?;
    rowless(to, label, 2, none, 2, 1)?;
    rowless(to, label, 2, none, 0, 3)
}

fn main(rt: HostRuntime) -> io::Result<()> {
    let to = &mut rt.stdout();
    lists(to)?;
    scenes(to)?;
    most(to)?;
    windows(to)?;
    refusals(to)?;
    refused_lists(to)
}
