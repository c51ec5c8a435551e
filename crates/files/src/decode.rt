// Numbers in bytes, little-endian, and with what a file begins.
ghost use Rattle.std.specs.Prelude.{◌≡◌, ℕ, ◌+◌, ◌*◌, ◌≤◌, ◌<◌, length};
ghost use Rattle.lemmas.specs.Grid.{listed};
ghost use Rattle.files.specs.Numbers.{u16_at, u32_at, u64_at, from_bits, i64s_at, u16s_at, ball_number};
ghost use Rattle.files.specs.Numbers.{number_bytes, word_bytes, short_bytes, version_of, universe_said, has_header};

use csg::{BALL_LENGTH, MOST_PLACES};
use universe::Universe;

// The version of a file that has no frame bits.
pub const FIRST_VERSION: u64 = 1;

// The bytes of a number, of a word, and of a number of a ball.
pub(crate) const NUMBER_BYTES: usize = 8;

pub(crate) const WORD_BYTES: usize = 2;

pub(crate) const SHORT_BYTES: usize = 2;

// Whether bytes are as long as a header of so many bytes, and begin with its mark.
#[tactic(auto, using(crate::proofs::Numbers::header_short, crate::proofs::Numbers::header_starts))]
pub(crate) fn has_header(bytes: &[u8], header: usize, mark: &[u8]) -> bool
    requires { length mark.now ≤ header }
    ensures { result ≡ has_header bytes.now header mark.now }
{
    header <= bytes.len() && bytes.starts_with(mark)
}

// The unsigned number of two bytes at a place. It, `u32_at` and `i64_at` stay three: `from_le_bytes` is a method of
// each type of number, and of no trait.
pub(crate) fn u16_at(bytes: &[u8], at: usize) -> u16
    requires { at + 2 ≤ length bytes.now }
    ensures { result ≡ u16_at bytes.now at }
{
    u16::from_le_bytes(bytes[at..at + 2].try_into().unwrap())
}

// The version of a file, behind the three bytes of its mark.
pub(crate) fn version_of(bytes: &[u8]) -> u64
    requires { 5 ≤ length bytes.now }
    ensures { result ≡ version_of bytes.now }
{
    u64::from(u16_at(bytes, 3))
}

// The universe that a file says, behind its version.
pub(crate) fn universe_said(bytes: &[u8]) -> Universe
    requires { 8 ≤ length bytes.now }
    ensures { result ≡ universe_said bytes.now }
{
    if version_of(bytes) == FIRST_VERSION {
        return Universe::with_equal_bits(bytes[5].into(), bytes[6].into());
    }
    Universe {
        axes: bytes[5].into(),
        bits: bytes[6].into(),
        frame_bits: bytes[7].into(),
    }
}

// The unsigned number of four bytes at a place.
pub(crate) fn u32_at(bytes: &[u8], at: usize) -> u32
    requires { at + 4 ≤ length bytes.now }
    ensures { result ≡ u32_at bytes.now at }
{
    u32::from_le_bytes(bytes[at..at + 4].try_into().unwrap())
}

// The whole number of eight bytes at a place.
#[tactic(auto, using(crate::proofs::Numbers::long_read))]
fn i64_at(bytes: &[u8], at: usize) -> i64
    requires { at + 8 ≤ length bytes.now }
    ensures { result ≡ from_bits 64 (u64_at bytes.now at) }
{
    u64::from_le_bytes(bytes[at..at + 8].try_into().unwrap()).cast_signed()
}

// Number i of balls that begin at `at`: the last of each ball is its radius, which is unsigned.
#[tactic(auto, unfolding(crate::specs::Numbers::ball_number), using(crate::proofs::Numbers::short_read))]
fn ball_number(bytes: &[u8], at: usize, i: usize) -> i64
    requires { at + short_bytes * (i + 1) ≤ length bytes.now }
    ensures { result ≡ ball_number bytes.now at i }
{
    let bits = u16_at(bytes, at + SHORT_BYTES * i);
    if i % BALL_LENGTH == MOST_PLACES {
        return i64::from(bits);
    }
    i64::from(bits.cast_signed())
}

// Fills a lent array with what is read at each place.
#[tactic(auto, using(crate::proofs::Numbers::filling_laws))]
fn fill<T: Copy, F: Fn(usize) -> T>(out: &mut [T], read: F)
    ghost rule: { ℕ → T }
    requires callable { (i : ℕ) → i < length out.old → F.pre read i }
    requires told { (i : ℕ) (x : T) → i < length out.old → F.post read i x → x ≡ rule i }
    ensures { out.new ≡ listed (length out.old) rule }
{
    for (i, value) in out.iter_mut().enumerate() {
        *value = read(i);
    }
}

// Reads numbers of eight bytes that begin at `at`, as many as `out` takes.
pub(crate) fn read_numbers(bytes: &[u8], at: usize, out: &mut [i64])
    requires { at + number_bytes * length out.old ≤ length bytes.now }
    ensures { out.new ≡ i64s_at bytes.now at (length out.old) }
{
    fill(out, |i| i64_at(bytes, at + NUMBER_BYTES * i));
}

// Reads the numbers of balls that begin at `at`, as many as `out` takes.
pub(crate) fn read_balls(bytes: &[u8], at: usize, out: &mut [i64])
    requires { at + short_bytes * length out.old ≤ length bytes.now }
    ensures { out.new ≡ listed (length out.old) (ball_number bytes.now at) }
{
    fill(out, |i| ball_number(bytes, at, i));
}

// Reads words that begin at `at`, as many as `out` takes.
pub(crate) fn read_words(bytes: &[u8], at: usize, out: &mut [u16])
    requires { at + word_bytes * length out.old ≤ length bytes.now }
    ensures { out.new ≡ u16s_at bytes.now at (length out.old) }
{
    fill(out, |i| u16_at(bytes, at + WORD_BYTES * i));
}
