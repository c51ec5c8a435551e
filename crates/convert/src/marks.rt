// A mark in two bits, its code; the codes over two blocks in one number; and such numbers joined by an operator.
ghost use Rattle.std.specs.Prelude.{◌≡◌, ◌≤◌};
ghost use Rattle.csg.specs.Words.{operator_of};
ghost use Rattle.convert.specs.Codes.{most_code, paired, tested_code, mixed, opposite_code, join_code};

// A mark that is BLACK, and one that is WHITE; neither bit where it is undecided. A mark is a byte and no enum, since
// marks over both halves are joined at once, by operations on bits, in the pass over the words of each block.
pub const BLACK_BIT: u8 = 1;

pub const WHITE_BIT: u8 = 2;

// What the code over the second of two blocks is multiplied by; the two colours' bits in both codes.
pub(crate) const PAIR_UNIT: u8 = 4;

pub(crate) const BLACK_BITS: u8 = BLACK_BIT + PAIR_UNIT * BLACK_BIT;

pub(crate) const WHITE_BITS: u8 = WHITE_BIT + PAIR_UNIT * WHITE_BIT;

// What the colours at the centres of two voxels are multiplied by; the bits of either colour, theirs too.
pub(crate) const CENTRE_UNIT: u8 = 16;

pub(crate) const BLACK_MASK: u8 = BLACK_BITS + CENTRE_UNIT * BLACK_BITS;

pub(crate) const WHITE_MASK: u8 = WHITE_BITS + CENTRE_UNIT * WHITE_BITS;

// The codes over two blocks.
pub(crate) fn paired(one: u8, other: u8) -> u8
    requires { (one ≤ most_code) × (other ≤ most_code) }
    ensures { result ≡ paired one other }
{
    one + PAIR_UNIT * other
}

// The code by the tests of the least and of the greatest value, the least looked at first. There is no branch, since
// which way a test goes is not to be foreseen.
pub fn tested_code(least: bool, greatest: bool) -> u8
    ensures { result ≡ tested_code least greatest }
{
    let black = least as u8;
    let white = greatest as u8;
    BLACK_BIT * black + WHITE_BIT * white * (1 - black)
}

// The bits of a mask where either code has them, the others where both have them.
fn mixed(either: u8, a: u8, b: u8) -> u8
    ensures { result ≡ mixed either a b }
{
    (a | (b & either)) & (b | either)
}

// The codes of the opposite marks: the two bits of each exchanged.
fn opposite_code(code: u8) -> u8
    ensures { result ≡ opposite_code code }
{
    (code & BLACK_MASK) * 2 + ((code / 2) & BLACK_MASK)
}

// The codes of two shapes joined by an operator's word.
#[tactic(auto, unfolding(crate::specs::Codes::join_code))]
pub(crate) fn join_code(word: u16, a: u8, b: u8) -> u8
    ensures { result ≡ join_code (operator_of word) a b }
{
    match word {
        csg::UNION => mixed(BLACK_MASK, a, b),
        csg::INTERSECTION => mixed(WHITE_MASK, a, b),
        _ => mixed(WHITE_MASK, a, opposite_code(b)),
    }
}
