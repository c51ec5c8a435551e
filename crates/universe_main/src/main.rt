// The universe asked through the entry points: a line for each answer to its questions, for each block with its halves,
// and for room.
#![tactic(auto)]

use std::io;
use std::io::Write;
use universe::{Block, Universe};

// d 2, k 2, f 2.
const SQUARE: Universe = Universe {
    axes: 2,
    bits: 2,
    frame_bits: 2,
};

// What a universe answers: its levels, the bits and the length of three axes, and the axes of the last five levels, the
// last first.
fn shape_of(to: &mut impl Write, universe: Universe) -> io::Result<()> {
    let Universe {
        axes,
        bits,
        frame_bits,
    } = universe;
    write!(to, "universe {axes} {bits} {frame_bits}")?;
    write!(to, " levels {} bits", universe.levels())?;
    for axis in 0..3 {
        write!(to, " {}", universe.bits_along(axis))?;
    }
    write!(to, " side")?;
    for axis in 0..3 {
        write!(to, " {}", universe.side(axis))?;
    }
    write!(to, " axes")?;
    for axis in &universe.axes_left()[..5] {
        write!(to, " {axis}")?;
    }
    writeln!(to)
}

// Universes that are taken and that are refused, with frame bits of their own and with equal bits; and the voxels of
// blocks.
fn shapes(to: &mut impl Write) -> io::Result<()> {
    for (axes, bits, frame_bits) in [
        (2, 2, 2),
        (3, 1, 1),
        (4, 10, 10),
        (1, 0, 0),
        (5, 2, 2),
        (2, 11, 11),
        (0, 2, 2),
        (4, 10, 12),
        (2, 0, 3),
        (3, 2, 0),
        (3, 1, 2),
        (2, 2, 3),
        (1, 0, 12),
        (1, 1, 1),
        (2, 2, 13),
    ] {
        shape_of(
            to,
            Universe {
                axes,
                bits,
                frame_bits,
            },
        )?;
    }
    for (axes, bits) in [(2, 2), (1, 10), (1, 11), (2, 11)] {
        shape_of(to, Universe::with_equal_bits(axes, bits))?;
    }
    write!(to, "voxels left")?;
    for left in [
        0,
        4,
        Universe::MOST_LEVELS,
        Universe::MOST_LEVELS + 1,
        u64::MAX,
    ] {
        write!(to, " {}", Universe::voxels_left(left))?;
    }
    writeln!(to)
}

// A block's level and its low places, behind its name.
fn place_of(to: &mut impl Write, name: &str, block: Block) -> io::Result<()> {
    let [first, second, third, fourth] = block.low;
    let level = block.level;
    write!(
        to,
        "{name} level {level} at {first} {second} {third} {fourth}"
    )
}

// A block, both its halves, each half by itself, and the block once more.
fn halves_of(to: &mut impl Write, block: Block) -> io::Result<()> {
    let both = block.halves();
    place_of(to, "block", block)?;
    place_of(to, ", low", both.low)?;
    place_of(to, ", high", both.high)?;
    place_of(to, ", low", block.low_half())?;
    place_of(to, ", high", block.high_half())?;
    place_of(to, ", block", block)?;
    writeln!(to)
}

// The whole of a universe halved down to a voxel, halves of other universes, and blocks that give themselves, since no
// halving gives them.
fn blocks(to: &mut impl Write) -> io::Result<()> {
    let whole = Universe::whole(SQUARE);
    let second = whole.high_half();
    let third = second.high_half();
    let fourth = third.high_half();
    for block in [
        whole,
        second,
        third,
        fourth,
        fourth.high_half(),
        whole.low_half(),
    ] {
        halves_of(to, block)?;
    }
    let cube = Universe::whole(Universe::with_equal_bits(3, 1));
    halves_of(to, cube.high_half().high_half())?;
    halves_of(to, Universe::whole(Universe::with_equal_bits(4, 10)))?;
    halves_of(to, Universe::whole(Universe::with_equal_bits(5, 2)))?;
    let long = Universe::whole(Universe {
        axes: 2,
        bits: 0,
        frame_bits: 2,
    });
    halves_of(to, long)?;
    halves_of(to, long.high_half())?;
    for (level, low) in [
        (1, [1, 0, 0, 0]),
        (1, [0, 2, 0, 0]),
        (2, [4, 0, 0, 0]),
        (1, [0, 0, 1, 0]),
        (5, [0, 0, 0, 0]),
    ] {
        halves_of(
            to,
            Block {
                universe: SQUARE,
                level,
                low,
            },
        )?;
    }
    Ok(())
}

// Room at both sides of what is refused, and for the most leaves and the most ball words.
fn rooms(to: &mut impl Write) -> io::Result<()> {
    for (axes, bits, frame_bits, leaves, balls) in [
        (2, 2, 2, 1, 0),
        (2, 2, 2, 2, 0),
        (2, 1, 1, 1, 0),
        (4, 10, 10, 0, 0),
        (4, 0, 0, 9, 0),
        (4, 10, 10, u64::MAX, 0),
        (5, 10, 10, 1, 0),
        (4, 11, 11, 1, 0),
        (0, 0, 0, 1, 0),
        (4, 10, 12, u64::MAX, 0),
        (4, 10, 13, 1, 0),
        (2, 0, 2, 1, 0),
        (3, 1, 2, 1, 0),
        (3, 2, 1, 1, 0),
        (1, 0, 12, 1, 0),
        (1, 1, 1, 1, 0),
        (2, 2, 2, 0, 1),
        (2, 2, 2, 1, 1),
        (3, 1, 2, 1, 64),
        (1, 0, 12, 0, 1),
        (4, 0, 0, 9, 1),
        (4, 10, 12, 0, u64::MAX),
        (5, 10, 10, 1, 1),
    ] {
        let universe = Universe {
            axes,
            bits,
            frame_bits,
        };
        match universe.room(leaves, balls) {
            Ok(symbols) => writeln!(to, "room 0 {symbols}")?,
            Err(refusal) => writeln!(to, "room {} 0", refusal.number())?,
        }
    }
    Ok(())
}

fn main(rt: HostRuntime) -> io::Result<()> {
    let to = &mut rt.stdout();
    shapes(to)?;
    blocks(to)?;
    rooms(to)
}
