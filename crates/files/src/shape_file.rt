// Shape files: the header, the refusal, writing and reading through lent room.
ghost use Rattle.std.specs.Prelude.{◌≡◌, ◌≤◌, length};
ghost use Rattle.universe.specs.Universe.{universe_refusal};
ghost use Rattle.files.specs.Numbers.{version_of};
ghost use Rattle.files.specs.Shapes.{shape_header_length, most_symbols, symbols_refusal, shape_header_bytes};
ghost use Rattle.files.specs.Shapes.{is_version, is_shape, shape_header_of, shape_header, shape_refusal};
ghost use Rattle.files.specs.Shapes.{write_answer, write_buffer, read_answer, read_buffer};
ghost use Rattle.files.specs.Told.{accepted_shape_header, shape_header_told, shape_told};
ghost use Rattle.universe.specs.Told.{number_told};
ghost use Rattle.bintree.specs.Told.{writing_told};

use crate::decode::{FIRST_VERSION, has_header, u32_at, universe_said, version_of};
use crate::{ShapeHeader, ShapeRead};
use bintree::{copy, merge};
use universe::{Refusal, Universe, Unwritten};

// With what a shape file begins.
const MARK: [u8; 3] = [b'B', b'N', b'T'];

// The version that is written, and the length of its header; the first version has no byte for the frame bits.
const VERSION: u64 = 2;

const HEADER_LENGTH: usize = 12;

const FIRST_HEADER_LENGTH: usize = 11;

// The bytes that count the symbols, at the end of the header.
const COUNT_BYTES: usize = 4;

// The most symbols that a shape file counts.
const MOST_SYMBOLS: usize = 4_294_967_295;

// Refused where an expression is not merged: merging into no room tells the length needed, or refuses what is no
// expression, and needs the expression's own length only where there is nothing to merge.
#[tactic(auto, using(crate::proofs::Measuring::measuring_laws))]
fn check_symbols(universe: Universe, expression: &[u8]) -> Result<(), Refusal>
    ensures { number_told result ≡ symbols_refusal universe expression.now }
{
    match merge(universe, expression, &mut []) {
        Err(Unwritten::Refused(refusal)) => Err(refusal),
        Err(Unwritten::NoRoom(needed)) if needed == expression.len() as u64 => Ok(()),
        _ => Err(Refusal::NotMerged),
    }
}

// The header of a shape file.
#[tactic(auto, using(crate::proofs::Shapes::header_laws))]
fn header_bytes(universe: Universe, count: usize) -> [u8; HEADER_LENGTH]
    requires universe_value { universe_refusal universe ≡ 0 }
    requires count_le_most_symbols { count ≤ most_symbols }
    ensures { result ≡ shape_header_bytes universe count }
{
    let [b, n, t] = MARK;
    let [low, high] = (VERSION as u16).to_le_bytes();
    let [first, second, third, fourth] = (count as u32).to_le_bytes();
    [
        b,
        n,
        t,
        low,
        high,
        universe.axes as u8,
        universe.bits as u8,
        universe.frame_bits as u8,
        first,
        second,
        third,
        fourth,
    ]
}

// Writes the shape file of a merged expression into lent room; where it is refused or does not fit, nothing.
#[tactic(auto, using(crate::proofs::Shapes::write_laws))]
pub fn write_shape(universe: Universe, expression: &[u8], out: &mut [u8]) -> Result<u64, Unwritten>
    ensures value { writing_told result ≡ write_answer universe expression.now out.old }
    ensures out_after { out.new ≡ write_buffer universe expression.now out.old }
{
    check_symbols(universe, expression)?;
    let count = expression.len();
    let needed = HEADER_LENGTH + count;
    if MOST_SYMBOLS < count || out.len() < needed {
        return Err(Unwritten::NoRoom(needed as u64));
    }
    copy(&header_bytes(universe, count), out, 0);
    copy(expression, out, HEADER_LENGTH);
    Ok(needed as u64)
}

// The length of the header of a version.
fn header_length(version: u64) -> usize
    ensures { result ≡ shape_header_length version }
{
    if version == FIRST_VERSION {
        return FIRST_HEADER_LENGTH;
    }
    HEADER_LENGTH
}

// Whether a version is read.
fn is_version(version: u64) -> bool
    ensures { result ≡ is_version version }
{
    version == FIRST_VERSION || version == VERSION
}

// Whether the bytes are a shape file by mark, version and length.
#[tactic(auto, unfolding(crate::specs::Shapes::is_shape), using(crate::proofs::Shapes::test_laws))]
fn is_shape(bytes: &[u8]) -> bool
    ensures { result ≡ is_shape bytes.now }
{
    if bytes.len() < FIRST_HEADER_LENGTH {
        return false;
    }
    let version = version_of(bytes);
    let header = header_length(version);
    has_header(bytes, header, &MARK)
        && is_version(version)
        && bytes.len() == header + u32_at(bytes, header - COUNT_BYTES) as usize
}

// What the header of a shape file says. That the bytes are as long is asked here alone, so no type holds it.
#[tactic(auto, using(crate::proofs::Shapes::least))]
fn header_of(bytes: &[u8]) -> ShapeHeader
    requires { shape_header_length (version_of bytes.now) ≤ length bytes.now }
    ensures { accepted_shape_header result ≡ shape_header_of bytes.now }
{
    let header = header_length(version_of(bytes));
    ShapeHeader {
        shape: ShapeRead {
            universe: universe_said(bytes),
            length: u32_at(bytes, header - COUNT_BYTES).into(),
        },
        place: header,
    }
}

// The header of a shape file, or `BadFile`.
#[tactic(auto, unfolding(crate::specs::Shapes::shape_header), using(crate::proofs::Shapes::shape_long))]
fn shape_header(bytes: &[u8]) -> Result<ShapeHeader, Refusal>
    ensures { shape_header_told result ≡ shape_header bytes.now }
{
    if !is_shape(bytes) {
        return Err(Refusal::BadFile);
    }
    Ok(header_of(bytes))
}

// Reads a shape file: its symbols go to the front of the lent room; where it is refused or they do not fit, nothing
// does.
#[tactic(auto, using(crate::proofs::Shapes::read_laws))]
pub fn read_shape(bytes: &[u8], out: &mut [u8]) -> Result<ShapeRead, Unwritten>
    ensures value { shape_told result ≡ read_answer bytes.now out.old }
    ensures out_after { out.new ≡ read_buffer bytes.now out.old }
{
    let ShapeHeader { shape, place } = shape_header(bytes)?;
    let count = shape.length as usize;
    let symbols = &bytes[place..place + count];
    check_symbols(shape.universe, symbols)?;
    if out.len() < count {
        return Err(Unwritten::NoRoom(shape.length));
    }
    copy(symbols, out, 0);
    Ok(shape)
}
