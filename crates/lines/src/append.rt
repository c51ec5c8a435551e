// Bytes, texts and numbers, stored one behind the other. Each function answers the place behind what it stored.
ghost use Rattle.std.specs.Prelude.{[], ◌∷◌, ◌++◌, ◌+◌, ◌≤◌, ◌<◌, length};
ghost use Rattle.lines.specs.Decimal.{decimal};
ghost use Rattle.lines.specs.Appended.{most_digits, most_bytes, Appended};

// No answer has more bytes.
pub const MOST_BYTES: usize = 256;

// A text.
#[tactic(auto, using(crate::proofs::Appended::copied))]
pub(crate) fn append_text(text: &[u8], out: &mut [u8; MOST_BYTES], at: usize) -> usize
    requires { at + length text.now ≤ most_bytes }
    ensures { let text = text.now in
        Appended (length text) out.old at text out.new result }
{
    let end = at + text.len();
    out[at..end].copy_from_slice(text);
    end
}

// One byte.
fn append_byte(byte: u8, out: &mut [u8; MOST_BYTES], at: usize) -> usize
    requires { at < most_bytes }
    ensures { Appended 1 out.old at (byte ∷ []) out.new result }
{
    append_text(&[byte], out, at)
}

// A number in decimal: its tens, and then its units.
#[tactic(auto, using(crate::proofs::Appended::number_laws))]
fn append_number(n: u64, out: &mut [u8; MOST_BYTES], at: usize) -> usize
    requires { at + length (decimal n) ≤ most_bytes }
    ensures { Appended (length (decimal n)) out.old at (decimal n) out.new result }
{
    if n < 10 {
        return append_byte(b'0' + n as u8, out, at);
    }
    let last = append_number(n / 10, out, at);
    append_byte(b'0' + (n % 10) as u8, out, last)
}

// A word and a number.
pub(crate) fn append_labelled(word: &[u8], n: u64, out: &mut [u8; MOST_BYTES], at: usize) -> usize
    requires { at + (length word.now + most_digits) ≤ most_bytes }
    ensures { let word = word.now in
        Appended (length word + most_digits) out.old at (word ++ decimal n) out.new result }
{
    let next = append_text(word, out, at);
    append_number(n, out, next)
}
