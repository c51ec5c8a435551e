// What merging holds back: a line for each expression, with the refusal first and every byte of the lent room, so that
// what was not to be written shows as the `.` it was.
#![tactic(auto)]

use std::io;
use std::io::Write;
use universe::Universe;

const LENT: usize = 12;

// An expression merged into the room lent, where every axis has so many bits.
fn merge(
    to: &mut impl Write,
    axes: u64,
    bits: u64,
    expression: &str,
    room: &mut [u8],
) -> io::Result<()> {
    let universe = Universe::with_equal_bits(axes, bits);
    write!(to, "axes {axes} bits {bits} {expression}: ")?;
    match bintree::merge(universe, expression.as_bytes(), room) {
        Ok(merged) => write!(to, "0 held {} length {} ", merged.held, merged.length)?,
        Err(why) => write!(to, "{} held 0 length {} ", why.number(), why.needed())?,
    }
    to.write_all(room)?;
    writeln!(to)
}

// At d 2, k 2 into enough room.
fn square(to: &mut impl Write, expression: &str) -> io::Result<()> {
    merge(to, 2, 2, expression, &mut [b'.'; LENT])
}

// One symbol holds nothing back; twice the levels are held at most, of either colour.
fn bounds(to: &mut impl Write) -> io::Result<()> {
    merge(to, 1, 0, "W", &mut [b'.'; LENT])?;
    merge(to, 1, 1, "(BW", &mut [b'.'; LENT])?;
    merge(to, 1, 4, "(W(W(W(WB", &mut [b'.'; LENT])?;
    merge(to, 3, 1, "(B(B(BW", &mut [b'.'; LENT])?;
    square(to, "B")?;
    square(to, "(B(B(B(BW")?;
    square(to, "(W(W(W(WB")?;
    square(to, "(B(B(B(BB")
}

// A run goes on with its own colour alone: one number for both colours would say 4, 4 and 6 of the first three.
fn runs(to: &mut impl Write) -> io::Result<()> {
    square(to, "(B(WB")?;
    square(to, "(W(BW")?;
    square(to, "(B(B(WB")?;
    square(to, "((BW(BB")?;
    square(to, "(BB")?;
    square(to, "(W((WWB")?;
    square(to, "(((WWW(BW")?;
    square(to, "((((BWBBB")
}

// Every refusal holds 0: no universe, no expression, too deep, and too little room.
fn refusals(to: &mut impl Write) -> io::Result<()> {
    merge(to, 5, 2, "(B(BW", &mut [b'.'; LENT])?;
    merge(to, 2, 11, "(B", &mut [b'.'; LENT])?;
    square(to, "")?;
    square(to, "(B(B")?;
    square(to, "(B(BWW")?;
    square(to, "(B(B(B(B(BW")?;
    merge(to, 2, 2, "(B(B(B(BW", &mut [b'.'; 9])?;
    merge(to, 2, 2, "(B(B(B(BW", &mut [b'.'; 8])?;
    merge(to, 2, 2, "(B(B(B(BW", &mut [])?;
    merge(to, 2, 2, "(B(B(B(BB", &mut [])
}

fn main(rt: HostRuntime) -> io::Result<()> {
    let to = &mut rt.stdout();
    bounds(to)?;
    runs(to)?;
    refusals(to)
}
