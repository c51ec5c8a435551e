// The pruned conversions run through the entry points: a line for each, its number, w where it is work room that is
// lacking, its length or need, the nodes looked at, whether the work room is as it was, and the room for symbols;
// behind it the number, the length and the room of the first conversion of the same scene.
#![tactic(auto)]

use pruned::{Conversion, Unconverted};
use std::io;
use std::io::Write;
use universe::{Universe, Unwritten};

// What the work room holds before a call.
const BEFORE: i64 = 77;

// The numbers of a node.
const NODE_LENGTH: usize = 3;

// The most nodes of work room that are lent.
const MOST_NODES: usize = 25;

// The most symbols that are lent.
const LENT: usize = 64;

// The rows of a plane that moves and of the frames from 1.
const TWO_ROWS: [i64; 10] = [-7, 2, 2, 0, 0, -1, 0, 1, 0, 0];

fn universe(axes: u64, bits: u64, frame_bits: u64) -> Universe {
    Universe {
        axes,
        bits,
        frame_bits,
    }
}

// Whether the first number of the work room, where there is one, is as it was.
fn is_untouched(work: &[i64]) -> bool {
    work.is_empty() || work[0] == BEFORE
}

// A line: what the pruned conversion answered and left, and what the first one did.
fn tell(
    to: &mut impl Write,
    label: &str,
    found: Result<Conversion, Unconverted>,
    work: &[i64],
    out: &[u8],
    first: Result<u64, Unwritten>,
    other: &[u8],
) -> io::Result<()> {
    match found {
        Ok(done) => write!(to, "{label}: 0 {} {}", done.length, done.looked)?,
        Err(why) => {
            let lack = if why.lacks_work() { "w" } else { "" };
            write!(to, "{label}: {}{lack} {} 0", why.number(), why.needed())?;
        }
    }
    if is_untouched(work) {
        write!(to, " untouched")?;
    }
    write!(to, " ")?;
    to.write_all(out)?;
    match first {
        Ok(length) => write!(to, " / 0 {length} ")?,
        Err(why) => write!(to, " / {} {} ", why.number(), why.needed())?,
    }
    to.write_all(other)?;
    writeln!(to)
}

// The expression of one tree by the pruned conversion, merged or raw.
fn pruned_of_one(
    merging: bool,
    universe: Universe,
    rows: &[i64],
    balls: &[i64],
    words: &[u16],
    work: &mut [i64],
    out: &mut [u8],
) -> Result<Conversion, Unconverted> {
    if merging {
        return pruned::merged_of_one(universe, rows, balls, words, work, out);
    }
    pruned::raw_of_one(universe, rows, balls, words, work, out)
}

// The same by the first conversion.
fn plain_of_one(
    merging: bool,
    universe: Universe,
    rows: &[i64],
    balls: &[i64],
    words: &[u16],
    out: &mut [u8],
) -> Result<u64, Unwritten> {
    if merging {
        return convert::merged_of_one(universe, rows, balls, words, out);
    }
    convert::raw_of_one(universe, rows, balls, words, out)
}

// One tree by both, with this work room and rooms for symbols.
fn one(
    to: &mut impl Write,
    merging: bool,
    label: &str,
    universe: Universe,
    rows: &[i64],
    balls: &[i64],
    words: &[u16],
    work: &mut [i64],
    out: &mut [u8],
    other: &mut [u8],
) -> io::Result<()> {
    let found = pruned_of_one(merging, universe, rows, balls, words, work, out);
    let plain = plain_of_one(merging, universe, rows, balls, words, other);
    tell(to, label, found, work, out, plain, other)
}

// The expression of two trees by the pruned conversion, merged or raw.
fn pruned_of_two(
    merging: bool,
    universe: Universe,
    rows: &[i64],
    balls: &[i64],
    first: &[u16],
    second: &[u16],
    work: &mut [i64],
    out: &mut [u8],
) -> Result<Conversion, Unconverted> {
    if merging {
        return pruned::merged_of_two(universe, rows, balls, first, second, work, out);
    }
    pruned::raw_of_two(universe, rows, balls, first, second, work, out)
}

// The same by the first conversion.
fn plain_of_two(
    merging: bool,
    universe: Universe,
    rows: &[i64],
    balls: &[i64],
    first: &[u16],
    second: &[u16],
    out: &mut [u8],
) -> Result<u64, Unwritten> {
    if merging {
        return convert::merged_of_two(universe, rows, balls, first, second, out);
    }
    convert::raw_of_two(universe, rows, balls, first, second, out)
}

// Two trees by both, with this work room and rooms for symbols.
fn two(
    to: &mut impl Write,
    merging: bool,
    label: &str,
    universe: Universe,
    rows: &[i64],
    balls: &[i64],
    first: &[u16],
    second: &[u16],
    work: &mut [i64],
    out: &mut [u8],
    other: &mut [u8],
) -> io::Result<()> {
    let found = pruned_of_two(merging, universe, rows, balls, first, second, work, out);
    let plain = plain_of_two(merging, universe, rows, balls, first, second, other);
    tell(to, label, found, work, out, plain, other)
}

// One tree, with work room for so many nodes and so much room for symbols.
fn one_in(
    to: &mut impl Write,
    merging: bool,
    label: &str,
    universe: Universe,
    rows: &[i64],
    balls: &[i64],
    words: &[u16],
    nodes: usize,
    lent: usize,
) -> io::Result<()> {
    let mut work = [BEFORE; NODE_LENGTH * MOST_NODES];
    let mut out = [b'.'; LENT];
    let mut other = [b'.'; LENT];
    if nodes <= MOST_NODES && lent <= LENT {
        one(
            to,
            merging,
            label,
            universe,
            rows,
            balls,
            words,
            &mut work[..NODE_LENGTH * nodes],
            &mut out[..lent],
            &mut other[..lent],
        )?;
    }
    Ok(())
}

// The same of two trees.
fn two_in(
    to: &mut impl Write,
    merging: bool,
    label: &str,
    universe: Universe,
    rows: &[i64],
    balls: &[i64],
    first: &[u16],
    second: &[u16],
    nodes: usize,
    lent: usize,
) -> io::Result<()> {
    let mut work = [BEFORE; NODE_LENGTH * MOST_NODES];
    let mut out = [b'.'; LENT];
    let mut other = [b'.'; LENT];
    if nodes <= MOST_NODES && lent <= LENT {
        two(
            to,
            merging,
            label,
            universe,
            rows,
            balls,
            first,
            second,
            &mut work[..NODE_LENGTH * nodes],
            &mut out[..lent],
            &mut other[..lent],
        )?;
    }
    Ok(())
}

// A tree of one plane.
fn plane(
    to: &mut impl Write,
    merging: bool,
    label: &str,
    plane: [i64; 5],
    words: &[u16],
    nodes: usize,
    lent: usize,
) -> io::Result<()> {
    one_in(
        to,
        merging,
        label,
        universe(2, 2, 2),
        &plane,
        &[],
        words,
        nodes,
        lent,
    )
}

// A plane that moves, from frame 1 on.
fn moved(
    to: &mut impl Write,
    merging: bool,
    label: &str,
    nodes: usize,
    lent: usize,
) -> io::Result<()> {
    one_in(
        to,
        merging,
        label,
        universe(2, 2, 2),
        &TWO_ROWS,
        &[],
        &[256, 257, 3],
        nodes,
        lent,
    )
}

// Constants alone.
fn constants(to: &mut impl Write) -> io::Result<()> {
    let none: &[i64] = &[];
    one_in(
        to,
        false,
        "WHITE",
        universe(2, 2, 2),
        none,
        none,
        &[0],
        5,
        1,
    )?;
    one_in(
        to,
        true,
        "BLACK less WHITE",
        universe(2, 2, 2),
        none,
        none,
        &[1, 0, 4],
        15,
        2,
    )
}

// Trees that are decided over the universe.
fn decided(to: &mut impl Write) -> io::Result<()> {
    plane(to, false, "decided at once", [5, 1, 0, 0, 0], &[256], 5, 1)?;
    one_in(
        to,
        false,
        "decided at once by one son",
        universe(2, 2, 2),
        &[5, 1, 0, 0, 0, -2, 1, 0, 0, 0],
        &[],
        &[257, 256, 2],
        15,
        1,
    )
}

// Walls, and centres that lie on a plane.
fn walls(to: &mut impl Write) -> io::Result<()> {
    let row: &[u16] = &[256];
    plane(to, false, "a wall", [-2, 1, 0, 0, 0], row, 5, 3)?;
    plane(to, false, "through centres", [-3, 2, 0, 0, 0], row, 5, 13)?;
    plane(to, true, "through centres", [-3, 2, 0, 0, 0], row, 5, 13)
}

// MINUS, and MINUS within MINUS.
fn cuts(to: &mut impl Write) -> io::Result<()> {
    one_in(
        to,
        false,
        "MINUS within MINUS",
        universe(2, 2, 2),
        &[-2, 1, 0, 0, 0, -1, 0, 1, 0, 0, 3, -1, 0, 0, 0],
        &[],
        &[256, 257, 258, 4, 4],
        25,
        11,
    )?;
    let cut: &[u16] = &[256, 256, 4];
    plane(to, false, "less itself", [-3, 2, 0, 0, 0], cut, 15, 13)?;
    plane(to, true, "less itself", [-3, 2, 0, 0, 0], cut, 15, 1)
}

// Two trees side by side, one of them BLACK or decided early.
fn pairs(to: &mut impl Write) -> io::Result<()> {
    let none: &[i64] = &[];
    let row: &[u16] = &[256];
    two_in(
        to,
        false,
        "BLACK beside a wall",
        universe(2, 3, 3),
        &[-3, 1, 0, 0, 0],
        none,
        &[1],
        row,
        14,
        21,
    )?;
    two_in(
        to,
        true,
        "a wall beside a frame",
        universe(2, 3, 3),
        &[-3, 1, 0, 0, 0, -5, 0, 1, 0, 0],
        none,
        row,
        &[257],
        14,
        35,
    )
}

// Balls.
fn balls(to: &mut impl Write) -> io::Result<()> {
    one_in(
        to,
        true,
        "a ball",
        universe(3, 2, 1),
        &[],
        &[2, 2, 0, 2],
        &[512],
        6,
        47,
    )?;
    two_in(
        to,
        true,
        "a ball less a ball beside a wall",
        universe(3, 2, 1),
        &[-1, 1, 0, 0, 0],
        &[2, 2, 0, 2, 2, 2, 0, 1],
        &[512, 513, 4],
        &[256],
        24,
        55,
    )
}

// The work room exact, and a node short with the room for symbols short too.
fn work_rooms(to: &mut impl Write) -> io::Result<()> {
    moved(to, false, "exact", 15, 23)?;
    moved(to, false, "a node short", 14, 23)?;
    moved(to, false, "both short", 14, 0)
}

// The room for symbols a symbol short.
fn symbol_rooms(to: &mut impl Write) -> io::Result<()> {
    moved(to, false, "a symbol short", 15, 22)?;
    moved(to, true, "merged, a symbol short", 15, 16)?;
    moved(to, true, "merged, exact", 15, 17)
}

// Refusals before both.
fn refused(to: &mut impl Write) -> io::Result<()> {
    let rows: &[i64] = &TWO_ROWS;
    let none: &[i64] = &[];
    let row: &[u16] = &[256];
    one_in(
        to,
        false,
        "no such row",
        universe(2, 2, 2),
        rows,
        none,
        &[256, 258, 3],
        0,
        1,
    )?;
    one_in(
        to,
        false,
        "no universe",
        universe(5, 2, 2),
        rows,
        none,
        row,
        1,
        1,
    )?;
    two_in(
        to,
        false,
        "no second tree",
        universe(2, 2, 2),
        rows,
        none,
        row,
        &[],
        1,
        1,
    )
}

// The work room of two trees.
fn two_rooms(to: &mut impl Write) -> io::Result<()> {
    let rows: &[i64] = &TWO_ROWS;
    let none: &[i64] = &[];
    let row: &[u16] = &[256];
    let other: &[u16] = &[257];
    two_in(
        to,
        false,
        "two exact",
        universe(2, 2, 2),
        rows,
        none,
        row,
        other,
        10,
        23,
    )?;
    two_in(
        to,
        true,
        "two, a node short",
        universe(2, 2, 2),
        rows,
        none,
        row,
        other,
        9,
        0,
    )
}

// A universe of one voxel.
fn no_levels(to: &mut impl Write) -> io::Result<()> {
    one_in(
        to,
        false,
        "no levels",
        universe(1, 0, 0),
        &[1, 0, 0, 0, 0],
        &[],
        &[256],
        1,
        1,
    )
}

fn main(rt: HostRuntime) -> io::Result<()> {
    let to = &mut rt.stdout();
    constants(to)?;
    decided(to)?;
    walls(to)?;
    cuts(to)?;
    pairs(to)?;
    balls(to)?;
    work_rooms(to)?;
    symbol_rooms(to)?;
    refused(to)?;
    two_rooms(to)?;
    no_levels(to)
}
