// Sure and possible contact run through the entry point: a line for each answer, its number and the three counts; and
// beside it what the verdict counts on the same scene.
#![tactic(auto)]

use bintree::Verdict;
use std::io;
use std::io::Write;
use universe::Universe;

const LENT: usize = 2_048;

fn universe(axes: u64, bits: u64, frame_bits: u64) -> Universe {
    Universe {
        axes,
        bits,
        frame_bits,
    }
}

// What the verdict of the same scene counts.
fn verdict(
    to: &mut impl Write,
    universe: Universe,
    rows: &[i64],
    balls: &[i64],
    first: &[u16],
    second: &[u16],
    first_frame: u64,
    last_frame: u64,
) -> io::Result<()> {
    let mut lent = [b'.'; LENT];
    let answer = convert::verdict_of_two(
        universe,
        rows,
        balls,
        first,
        second,
        first_frame,
        last_frame,
        &mut lent,
    );
    match answer.map(|clearance| clearance.verdict) {
        Ok(Verdict::Clear) => write!(to, ", verdict 0 clear"),
        Ok(Verdict::Hit(contact)) => write!(to, ", verdict 0 {}", contact.voxels),
        Err(why) => write!(to, ", verdict {} clear", why.number()),
    }
}

// The counts of two trees over a window, and the verdict.
fn over(
    to: &mut impl Write,
    label: &str,
    universe: Universe,
    rows: &[i64],
    balls: &[i64],
    first: &[u16],
    second: &[u16],
    first_frame: u64,
    last_frame: u64,
) -> io::Result<()> {
    let answer = at_once::contacts_of_two(
        universe,
        rows,
        balls,
        first,
        second,
        first_frame,
        last_frame,
    );
    match answer {
        Ok(shared) => write!(
            to,
            "{label}: 0 {} {} {}",
            shared.sure, shared.centre, shared.possible
        )?,
        Err(refusal) => write!(to, "{label}: {} 0 0 0", refusal.number())?,
    }
    verdict(
        to,
        universe,
        rows,
        balls,
        first,
        second,
        first_frame,
        last_frame,
    )?;
    writeln!(to)
}

// One tree and BLACK over the four frames of four places.
fn strip(to: &mut impl Write, label: &str, rows: &[i64], words: &[u16]) -> io::Result<()> {
    over(to, label, universe(2, 2, 2), rows, &[], words, &[1], 0, 3)
}

// A plane as it is and reversed.
fn turned(to: &mut impl Write, label: &str, plane: &[i64]) -> io::Result<()> {
    strip(to, label, plane, &[256])?;
    strip(to, "reversed", plane, &[1, 256, 4])
}

// The same, and less itself.
fn cut(to: &mut impl Write, label: &str, plane: &[i64]) -> io::Result<()> {
    turned(to, label, plane)?;
    strip(to, "less itself", plane, &[256, 256, 4])
}

// Planes through centres and through faces, and five zeros.
fn planes(to: &mut impl Write) -> io::Result<()> {
    cut(to, "through centres", &[-3, 2, 0, 0, 0])?;
    cut(to, "through faces", &[-2, 1, 0, 0, 0])?;
    turned(to, "five zeros", &[0, 0, 0, 0, 0])
}

// A wall that ends inside a place.
fn quarters(to: &mut impl Write) -> io::Result<()> {
    let rows: &[i64] = &[5, -4, 0, 0, 0, -1, 1, 0, 0, 0];
    strip(to, "a quarter of a place", rows, &[256, 257, 3])?;
    strip(to, "the places beside it", rows, &[256, 257, 2])
}

// A mover and a wall in a window.
fn moved(to: &mut impl Write, label: &str, first_frame: u64, last_frame: u64) -> io::Result<()> {
    over(
        to,
        label,
        universe(2, 2, 2),
        &[
            0, 1, -1, 0, 0, 1, -1, 1, 0, 0, -2, 1, 0, 0, 0, 3, -1, 0, 0, 0,
        ],
        &[],
        &[256, 257, 3],
        &[258, 259, 3],
        first_frame,
        last_frame,
    )
}

// Windows at both ends, within, and past the end.
fn windows(to: &mut impl Write) -> io::Result<()> {
    moved(to, "frame 0", 0, 0)?;
    moved(to, "frame 1", 1, 1)?;
    moved(to, "frames 2 and 3", 2, 3)?;
    moved(to, "frame 3", 3, 3)?;
    moved(to, "all frames", 0, 3)?;
    moved(to, "past the last", 0, 4)?;
    moved(to, "first after last", 2, 1)
}

// A tree of one ball alone, up to a frame.
fn alone(
    to: &mut impl Write,
    label: &str,
    universe: Universe,
    ball: [i64; 4],
    words: &[u16],
    last_frame: u64,
) -> io::Result<()> {
    over(to, label, universe, &[], &ball, words, &[1], 0, last_frame)
}

// Balls that touch a voxel from outside and from inside, reversed too, on one and two place axes.
fn touching(to: &mut impl Write) -> io::Result<()> {
    let ball: &[u16] = &[512];
    let reversed: &[u16] = &[1, 512, 4];
    alone(
        to,
        "touches a place",
        universe(2, 2, 1),
        [1, 0, 0, 1],
        ball,
        1,
    )?;
    alone(to, "reversed", universe(2, 2, 1), [1, 0, 0, 1], reversed, 1)?;
    alone(to, "one voxel", universe(3, 2, 1), [4, 4, 0, 0], ball, 0)?;
    alone(to, "reversed", universe(3, 2, 1), [4, 4, 0, 0], reversed, 0)
}

// Balls on three place axes and on none.
fn other_axes(to: &mut impl Write) -> io::Result<()> {
    let ball: &[u16] = &[512];
    alone(to, "three places", universe(4, 2, 1), [2, 2, 2, 2], ball, 1)?;
    alone(
        to,
        "less itself",
        universe(4, 2, 1),
        [2, 2, 2, 2],
        &[512, 512, 4],
        1,
    )?;
    alone(to, "no place", universe(1, 0, 2), [0, 0, 0, 0], ball, 3)
}

// Two balls, one against the other.
fn two_heads(to: &mut impl Write, label: &str, balls: [i64; 8]) -> io::Result<()> {
    over(
        to,
        label,
        universe(3, 3, 2),
        &[],
        &balls,
        &[512],
        &[513],
        1,
        2,
    )
}

// Two heads.
fn heads(to: &mut impl Write) -> io::Result<()> {
    two_heads(to, "heads that touch", [2, 4, 0, 2, 6, 4, 0, 2])?;
    two_heads(to, "heads that meet", [3, 4, 0, 2, 5, 4, 0, 2])
}

// A plane and BLACK from the first frame to a last.
fn plane_over(
    to: &mut impl Write,
    label: &str,
    universe: Universe,
    plane: [i64; 5],
    last_frame: u64,
) -> io::Result<()> {
    over(
        to,
        label,
        universe,
        &plane,
        &[],
        &[256],
        &[1],
        0,
        last_frame,
    )
}

// BLACK and a constant in a window.
fn black_over(
    to: &mut impl Write,
    label: &str,
    universe: Universe,
    constant: u16,
    first_frame: u64,
    last_frame: u64,
) -> io::Result<()> {
    over(
        to,
        label,
        universe,
        &[],
        &[],
        &[1],
        &[constant],
        first_frame,
        last_frame,
    )
}

// No bits, one axis, and the largest.
fn smallest(to: &mut impl Write) -> io::Result<()> {
    plane_over(
        to,
        "one voxel in doubt",
        universe(2, 0, 0),
        [-1, 2, 0, 0, 0],
        0,
    )?;
    black_over(to, "one voxel", universe(4, 0, 0), 1, 0, 0)?;
    black_over(to, "none", universe(4, 0, 0), 0, 0, 0)?;
    plane_over(to, "frames alone", universe(1, 0, 2), [-3, 2, 0, 0, 0], 3)?;
    black_over(to, "all of the largest", universe(4, 10, 12), 1, 0, 4_095)?;
    black_over(to, "its last frame", universe(4, 10, 12), 1, 4_095, 4_095)
}

// Each number up to the balls', with a fault behind it.
fn refused_surfaces(to: &mut impl Write) -> io::Result<()> {
    let none: &[i64] = &[];
    let torn: &[i64] = &[0];
    let black: &[u16] = &[1];
    over(
        to,
        "the universe",
        universe(5, 2, 2),
        torn,
        none,
        black,
        black,
        0,
        3,
    )?;
    over(
        to,
        "the rows",
        universe(2, 2, 2),
        torn,
        torn,
        black,
        black,
        0,
        3,
    )?;
    over(
        to,
        "the balls",
        universe(2, 2, 2),
        none,
        torn,
        &[],
        black,
        0,
        3,
    )
}

// Two trees over no rows and no balls, up to a frame.
fn bare(
    to: &mut impl Write,
    label: &str,
    first: &[u16],
    second: &[u16],
    last_frame: u64,
) -> io::Result<()> {
    over(
        to,
        label,
        universe(2, 2, 2),
        &[],
        &[],
        first,
        second,
        0,
        last_frame,
    )
}

// Each number of the trees and of the window.
fn refused_trees(to: &mut impl Write) -> io::Result<()> {
    let none: &[u16] = &[];
    let black: &[u16] = &[1];
    let overfull: &[u16] = &[1; 256];
    bare(to, "tree 1", &[256], overfull, 3)?;
    bare(to, "tree 1 overfull", overfull, none, 3)?;
    bare(to, "tree 2", black, none, 4)?;
    bare(to, "tree 2 overfull", black, overfull, 4)?;
    bare(to, "the window", black, black, 4)
}

// Two trees over planes that move and a ball, in a window.
fn moving(
    to: &mut impl Write,
    label: &str,
    universe: Universe,
    first: &[u16],
    second: &[u16],
    first_frame: u64,
    last_frame: u64,
) -> io::Result<()> {
    over(
        to,
        label,
        universe,
        &[-7, 2, 1, -1, 0, 9, -1, -3, 2, 0],
        &[2, 2, 0, 2],
        first,
        second,
        first_frame,
        last_frame,
    )
}

// Levels at both sides of a word's six, and windows that cut a word.
fn levels(to: &mut impl Write) -> io::Result<()> {
    let plane: &[u16] = &[257];
    moving(to, "five levels", universe(3, 1, 3), &[512], plane, 1, 6)?;
    moving(
        to,
        "six levels",
        universe(3, 2, 2),
        &[1, 256, 4],
        &[257, 512, 2],
        1,
        2,
    )?;
    moving(
        to,
        "seven levels",
        universe(3, 2, 3),
        &[256, 512, 2],
        plane,
        1,
        6,
    )
}

// More levels, more frames than places and fewer: planes that move, a ball, and what is left of one.
fn more_levels(to: &mut impl Write) -> io::Result<()> {
    moving(
        to,
        "ten levels",
        universe(3, 4, 2),
        &[257, 512, 4],
        &[1],
        2,
        3,
    )?;
    over(
        to,
        "twelve levels",
        universe(4, 2, 6),
        &[-7, 2, 1, -1, 0, 9, -1, -3, 2, -1],
        &[2, 1, 3, 2],
        &[257, 512, 2],
        &[1, 256, 512, 3, 4],
        5,
        5 + 36,
    )?;
    over(
        to,
        "nine levels of frames",
        universe(1, 0, 9),
        &[-201, 2, 0, 0, 0, 301, -1, 0, 0, 0],
        &[],
        &[256],
        &[257],
        99,
        300,
    )
}

fn main(rt: HostRuntime) -> io::Result<()> {
    let to = &mut rt.stdout();
    planes(to)?;
    quarters(to)?;
    windows(to)?;
    touching(to)?;
    other_axes(to)?;
    heads(to)?;
    smallest(to)?;
    levels(to)?;
    more_levels(to)?;
    refused_surfaces(to)?;
    refused_trees(to)
}
