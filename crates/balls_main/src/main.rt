// Balls run through the entry points: a line for each answer, with the refusal first and every byte of the lent room,
// so that what was not to be written shows as the `.` it was.
#![tactic(auto)]

use bintree::Verdict;
use std::io;
use std::io::Write;
use universe::{Refusal, Universe, Unwritten};

const LENT: usize = 48;

fn universe(axes: u64, bits: u64, frame_bits: u64) -> Universe {
    Universe {
        axes,
        bits,
        frame_bits,
    }
}

// An answer's number and its length, and the room that is lent.
fn show(
    to: &mut impl Write,
    label: &str,
    answer: Result<u64, Unwritten>,
    room: &[u8],
) -> io::Result<()> {
    match answer {
        Ok(length) => write!(to, "{label} 0 {length} ")?,
        Err(why) => write!(to, "{label} {} {} ", why.number(), why.needed())?,
    }
    to.write_all(room)?;
    writeln!(to)
}

// One tree: its room, raw and merged.
fn one_tree(
    to: &mut impl Write,
    label: &str,
    universe: Universe,
    rows: &[i64],
    balls: &[i64],
    words: &[u16],
) -> io::Result<()> {
    writeln!(to, "{label}")?;
    match universe.room(csg::halfspace_words(words), csg::ball_words(words)) {
        Ok(symbols) => writeln!(to, "room 0 {symbols}")?,
        Err(refusal) => writeln!(to, "room {} 0", refusal.number())?,
    }
    let mut lent = [b'.'; LENT];
    let answer = convert::raw_of_one(universe, rows, balls, words, &mut lent);
    show(to, "raw", answer, &lent)?;
    let mut lent = [b'.'; LENT];
    let answer = convert::merged_of_one(universe, rows, balls, words, &mut lent);
    show(to, "merged", answer, &lent)
}

// A ball alone.
fn alone(
    to: &mut impl Write,
    label: &str,
    universe: Universe,
    x: i64,
    y: i64,
    z: i64,
    radius: i64,
) -> io::Result<()> {
    one_tree(to, label, universe, &[], &[x, y, z, radius], &[512])
}

// Balls alone, from no place axis to three; one whose raw expression is longer than the room lent.
fn balls_alone(to: &mut impl Write) -> io::Result<()> {
    let line = universe(2, 2, 1);
    alone(to, "no place axis", universe(1, 0, 2), 0, 0, 0, 0)?;
    alone(to, "a point at a corner", line, 1, 0, 0, 0)?;
    alone(to, "radius 1 at a corner", line, 1, 0, 0, 1)?;
    alone(to, "a centre below the universe", line, -1, 0, 0, 3)?;
    alone(to, "a centre at its limit", line, 1_024, 0, 0, 1_024)?;
    alone(to, "a centre at its other limit", line, -1_024, 0, 0, 1_024)?;
    alone(to, "two place axes", universe(3, 2, 0), 2, 2, 0, 2)?;
    alone(to, "three place axes", universe(4, 1, 1), 0, 0, 0, 1)?;
    alone(
        to,
        "more symbols than are lent",
        universe(3, 2, 1),
        2,
        2,
        0,
        1,
    )
}

// A ball and a halfspace, and a ball less itself.
fn trees(to: &mut impl Write, words: &[u16]) -> io::Result<()> {
    one_tree(
        to,
        "a tree",
        universe(3, 2, 0),
        &[-2, 1, 0, 0, 0],
        &[2, 2, 0, 2],
        words,
    )
}

// The number that refuses a scene of one tree and BLACK before room is asked for.
fn refusal(
    to: &mut impl Write,
    label: &str,
    universe: Universe,
    balls: &[i64],
    words: &[u16],
) -> io::Result<()> {
    let checked = convert::check_scene(universe, &[], balls, words, &[1]);
    writeln!(
        to,
        "refusal: {label} {}",
        checked.map_or_else(Refusal::number, |()| 0)
    )
}

// That of one ball.
fn limit(
    to: &mut impl Write,
    label: &str,
    axes: u64,
    x: i64,
    y: i64,
    z: i64,
    radius: i64,
) -> io::Result<()> {
    let bits = if axes == 1 { 0 } else { 1 };
    refusal(
        to,
        label,
        universe(axes, bits, 1),
        &[x, y, z, radius],
        &[512],
    )
}

// Both sides of each limit.
fn limits(to: &mut impl Write) -> io::Result<()> {
    limit(to, "taken", 4, 1_024, -1_024, 0, 1_024)?;
    limit(to, "a centre one over", 4, 1_025, 0, 0, 0)?;
    limit(to, "a centre one under", 4, 0, 0, -1_025, 0)?;
    limit(to, "the least i64", 4, -9_223_372_036_854_775_808, 0, 0, 0)?;
    limit(to, "a radius one over", 4, 0, 0, 0, 1_025)?;
    limit(to, "a radius below 0", 4, 0, 0, 0, -1)?;
    limit(to, "the last axis is no place axis", 3, 0, 0, 1, 0)?;
    limit(to, "one axis", 1, 1, 0, 0, 0)
}

// Each number in its order.
fn orders(to: &mut impl Write) -> io::Result<()> {
    let torn: &[i64] = &[0];
    let none: &[u16] = &[];
    refusal(to, "the universe first", universe(5, 1, 1), torn, none)?;
    refusal(to, "not in fours", universe(2, 1, 1), torn, none)?;
    refusal(to, "the trees after", universe(2, 1, 1), &[], &[512])
}

// Words at both sides of those that name a ball, and 64 balls and 65.
fn counts(to: &mut impl Write) -> io::Result<()> {
    let most: &[i64] = &[0; 256];
    let last: &[u16] = &[575];
    refusal(
        to,
        "an index past the balls",
        universe(2, 1, 1),
        &[0; 252],
        last,
    )?;
    refusal(to, "64 balls", universe(2, 1, 1), most, last)?;
    refusal(to, "576 names none", universe(2, 1, 1), most, &[576])?;
    refusal(to, "65 balls", universe(2, 1, 1), &[0; 260], last)
}

// The verdict of two trees over all frames, with its number and the raw length.
fn verdict(
    to: &mut impl Write,
    label: &str,
    rows: &[i64],
    balls: &[i64],
    first: &[u16],
    second: &[u16],
) -> io::Result<()> {
    let mut lent = [b'.'; 127];
    let answer = convert::verdict_of_two(
        universe(3, 2, 2),
        rows,
        balls,
        first,
        second,
        0,
        3,
        &mut lent,
    );
    write!(to, "{label}")?;
    match answer {
        Ok(judged) => {
            match judged.verdict {
                Verdict::Clear => write!(to, " clear")?,
                Verdict::Hit(contact) => {
                    write!(
                        to,
                        " hit {} {} {}",
                        contact.first, contact.last, contact.voxels
                    )?;
                }
            }
            writeln!(to, " 0 {}", judged.length)
        }
        Err(why) => writeln!(to, " clear {} {}", why.number(), why.needed()),
    }
}

// Two heads.
fn heads(to: &mut impl Write, label: &str, balls: [i64; 8]) -> io::Result<()> {
    verdict(to, label, &[], &balls, &[512], &[513])
}

// Two heads, and a head before a wall that comes nearer.
fn verdicts(to: &mut impl Write) -> io::Result<()> {
    heads(to, "heads apart", [1, 1, 0, 1, 3, 3, 0, 1])?;
    heads(to, "heads that meet", [1, 1, 0, 2, 3, 3, 0, 2])?;
    verdict(
        to,
        "a wall that comes",
        &[-4, 1, 0, 1, 0],
        &[1, 1, 0, 1],
        &[512],
        &[256],
    )
}

fn main(rt: HostRuntime) -> io::Result<()> {
    let to = &mut rt.stdout();
    balls_alone(to)?;
    trees(to, &[512, 256, 3])?;
    trees(to, &[256, 512, 4])?;
    trees(to, &[512, 256, 4])?;
    trees(to, &[512, 512, 4])?;
    limits(to)?;
    orders(to)?;
    counts(to)?;
    verdicts(to)
}
