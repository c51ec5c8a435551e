// Universes accepted through the entry point and asked: a line for each, with the number of its refusal where it is
// refused.
#![tactic(auto)]

use std::io;
use std::io::Write;
use universe::{Accepted, Universe};

// What an accepted universe answers: its levels, its frame axis and frames, the length of three axes where it has them,
// the axes of the last five levels, the last first, and room for two leaves and a ball word.
fn told_by(to: &mut impl Write, accepted: Accepted) -> io::Result<()> {
    write!(to, "accepted levels {}", accepted.levels())?;
    write!(to, " frame axis {}", accepted.frame_axis())?;
    write!(to, " frames {} side", accepted.frames())?;
    for axis in 0..3 {
        match accepted.side(axis) {
            Some(side) => write!(to, " {side}")?,
            None => write!(to, " none")?,
        }
    }
    write!(to, " axes")?;
    for axis in &accepted.axes_left()[..5] {
        write!(to, " {axis}")?;
    }
    writeln!(to, " room {}", accepted.room(2, 1))
}

// Universes that are accepted, and some that are refused.
fn answers(to: &mut impl Write) -> io::Result<()> {
    for (axes, bits, frame_bits) in [
        (2, 2, 2),
        (3, 1, 2),
        (1, 0, 12),
        (4, 10, 12),
        (0, 2, 2),
        (5, 2, 2),
        (1, 1, 1),
    ] {
        let universe = Universe {
            axes,
            bits,
            frame_bits,
        };
        match universe.accepted() {
            Ok(accepted) => told_by(to, accepted)?,
            Err(refusal) => writeln!(to, "refused {}", refusal.number())?,
        }
    }
    Ok(())
}

fn main(rt: HostRuntime) -> io::Result<()> {
    answers(&mut rt.stdout())
}
