// The merged text of a word: one symbol where its digits are alike, else `(`, the text of its low digits and that of
// its high digits.
ghost use Rattle.std.specs.Prelude.{◌≡◌, ◌≤◌};
ghost use Rattle.std.specs.Int.Bits.{bit_and};
ghost use Rattle.std.specs.Int.Count.{ones};
ghost use Rattle.bintree.specs.Shape.{size};
ghost use Rattle.masks.specs.Shapes.{mask_shape};
ghost use Rattle.at_once.specs.Merged.{TextJob, RoomyText, WrittenText, LaidShape};

use crate::digits::{WORD_LEVELS, all_ones, lower, upper};

// What the place past a shape is multiplied by where it is packed.
pub(crate) const HELD_UNIT: usize = 256;

// Writes the text of a word with so many levels left from `at` on, as far as there is room: the place past it.
fn write_word(word: u64, left: u64, out: &mut [u8], at: usize) -> usize
    requires { TextJob word left at }
    ensures { WrittenText word left out.old at result out.new }
{
    if word == 0 {
        bintree::note(out, at, b'W');
        return at + 1;
    }
    if word == all_ones(left) {
        bintree::note(out, at, b'B');
        return at + 1;
    }
    let n = left - 1;
    let low = lower(word, n);
    let high = upper(word, n);
    bintree::note(out, at, b'(');
    let middle = write_word(low, n, out, at + 1);
    write_word(high, n, out, middle)
}

// The same of so many digits, where there is room for the longest text that they have.
fn write_one(word: u64, out: &mut [u8], at: usize) -> usize
    requires { RoomyText word 0 out.old at }
    ensures { WrittenText word 0 out.old at result out.new }
{
    if word == 0 {
        out[at] = b'W';
        return at + 1;
    }
    out[at] = b'B';
    at + 1
}

fn write_two(word: u64, out: &mut [u8], at: usize) -> usize
    requires { RoomyText word 1 out.old at }
    ensures { WrittenText word 1 out.old at result out.new }
{
    if word == 0 {
        out[at] = b'W';
        return at + 1;
    }
    if word == 3 {
        out[at] = b'B';
        return at + 1;
    }
    out[at] = b'(';
    let middle = write_one(word % 2, out, at + 1);
    write_one(word / 2, out, middle)
}

fn write_four(word: u64, out: &mut [u8], at: usize) -> usize
    requires { RoomyText word 2 out.old at }
    ensures { WrittenText word 2 out.old at result out.new }
{
    if word == 0 {
        out[at] = b'W';
        return at + 1;
    }
    if word == 15 {
        out[at] = b'B';
        return at + 1;
    }
    out[at] = b'(';
    let middle = write_two(word % 4, out, at + 1);
    write_two(word / 4, out, middle)
}

fn write_eight(word: u64, out: &mut [u8], at: usize) -> usize
    requires { RoomyText word 3 out.old at }
    ensures { WrittenText word 3 out.old at result out.new }
{
    if word == 0 {
        out[at] = b'W';
        return at + 1;
    }
    if word == 255 {
        out[at] = b'B';
        return at + 1;
    }
    out[at] = b'(';
    let middle = write_four(word % 16, out, at + 1);
    write_four(word / 16, out, middle)
}

fn write_sixteen(word: u64, out: &mut [u8], at: usize) -> usize
    requires { RoomyText word 4 out.old at }
    ensures { WrittenText word 4 out.old at result out.new }
{
    if word == 0 {
        out[at] = b'W';
        return at + 1;
    }
    if word == 0xffff {
        out[at] = b'B';
        return at + 1;
    }
    out[at] = b'(';
    let middle = write_eight(word % 256, out, at + 1);
    write_eight(word / 256, out, middle)
}

// Thirty-two digits that are all 1.
const THIRTY_TWO_ONES: u64 = 0xffff_ffff;

fn write_thirty_two(word: u64, out: &mut [u8], at: usize) -> usize
    requires { RoomyText word 5 out.old at }
    ensures { WrittenText word 5 out.old at result out.new }
{
    if word == 0 {
        out[at] = b'W';
        return at + 1;
    }
    if word == THIRTY_TWO_ONES {
        out[at] = b'B';
        return at + 1;
    }
    out[at] = b'(';
    let middle = write_sixteen(word % 0x1_0000, out, at + 1);
    write_sixteen(word / 0x1_0000, out, middle)
}

fn write_sixty_four(word: u64, out: &mut [u8], at: usize) -> usize
    requires { RoomyText word 6 out.old at }
    ensures { WrittenText word 6 out.old at result out.new }
{
    if word == 0 {
        out[at] = b'W';
        return at + 1;
    }
    if word == 0xffff_ffff_ffff_ffff {
        out[at] = b'B';
        return at + 1;
    }
    out[at] = b'(';
    let middle = write_thirty_two(word % 0x1_0000_0000, out, at + 1);
    write_thirty_two(word / 0x1_0000_0000, out, middle)
}

// How many blocks of one size are not alike: `mixed` has a digit where one that begins there is, `starts` where they
// begin.
fn mixed_blocks(mixed: u64, starts: u64) -> u64
    ensures value { result ≡ ones (bit_and mixed starts) }
    ensures upper_bound { result ≤ 64 }
{
    u64::count_ones(mixed & starts) as u64
}

// How many symbols the text of a word of 64 digits has: one, and two more for each block whose digits are not alike.
fn size_of_word(word: u64) -> usize
    ensures { result ≡ size (mask_shape 6 word) }
{
    let two = word ^ word >> 1;
    let four = two | two >> 2 | (word ^ word >> 2);
    let eight = four | four >> 4 | (word ^ word >> 4);
    let sixteen = eight | eight >> 8 | (word ^ word >> 8);
    let thirty_two = sixteen | sixteen >> 16 | (word ^ word >> 16);
    let all = thirty_two | thirty_two >> 32 | (word ^ word >> 32);
    let mut blocks = mixed_blocks(two, 0x5555_5555_5555_5555);
    blocks += mixed_blocks(four, 0x1111_1111_1111_1111);
    blocks += mixed_blocks(eight, 0x0101_0101_0101_0101);
    blocks += mixed_blocks(sixteen, 0x0001_0001_0001_0001);
    blocks += mixed_blocks(thirty_two, 0x0000_0001_0000_0001);
    blocks += mixed_blocks(all, 1);
    (1 + 2 * blocks) as usize
}

// The most symbols of the text of a word of 64 digits, and one more.
const WORD_ROOM: usize = 128;

// Writes the text of a word: of 64 digits with no test of the room where it suffices, and none where there is none.
fn write_text(word: u64, left: u64, out: &mut [u8], at: usize) -> usize
    requires { TextJob word left at }
    ensures { WrittenText word left out.old at result out.new }
{
    if left != WORD_LEVELS as u64 {
        return write_word(word, left, out, at);
    }
    if out.len() <= at {
        return at + size_of_word(word);
    }
    if out.len() - at < WORD_ROOM {
        return write_word(word, left, out, at);
    }
    write_sixty_four(word, out, at)
}

// Lays the shape of a word from `at` on, as far as there is room; a leaf is held back. The place past it comes back
// packed with the symbol that is held back, or 0.
pub(crate) fn lay_word(word: u64, left: u64, out: &mut [u8], at: usize) -> usize
    requires { TextJob word left at }
    ensures { LaidShape (mask_shape left word) out.old at result out.new }
{
    if word == 0 {
        return (at + 1) * HELD_UNIT + b'W' as usize;
    }
    if word == all_ones(left) {
        return (at + 1) * HELD_UNIT + b'B' as usize;
    }
    write_text(word, left, out, at) * HELD_UNIT
}
