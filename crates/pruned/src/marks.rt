// The code of a mark of a side, by two tests and reversed, and that of two shapes joined by an operator. A mark is a
// byte and no enum, since marks are joined by operations on bits in the pass over the nodes of each block.
ghost use Rattle.std.specs.Prelude.{◌≡◌, ◌+◌, ◌<◌, ◌^◌};
ghost use Rattle.convert.specs.Codes.{tested_code};
ghost use Rattle.pruned.specs.Nodes.{turned_code, joined_code, end_after};

use convert::{BLACK_BIT, WHITE_BIT};

// The code of a side: of one that is reversed the two bits are exchanged.
pub fn turned_code(turned: bool, code: u8) -> u8
    ensures { result ≡ turned_code turned code }
{
    if turned {
        return code % WHITE_BIT * WHITE_BIT + code / WHITE_BIT;
    }
    code
}

// The code of a side by the tests of the least and of the greatest value, the least looked at first; of one that is
// reversed the two bits are exchanged.
pub fn side_code(turned: bool, least: bool, greatest: bool) -> u8
    ensures { result ≡ turned_code turned (tested_code least greatest) }
{
    if least {
        return BLACK_BIT + turned as u8;
    }
    if greatest {
        return WHITE_BIT - turned as u8;
    }
    0
}

// The code of two shapes joined, by INTERSECTION where `meet` and else by UNION.
pub fn joined_code(meet: bool, a: u8, b: u8) -> u8
    ensures { result ≡ joined_code meet a b }
{
    if meet {
        return ((a | b) & WHITE_BIT) | ((a & b) & BLACK_BIT);
    }
    ((a | b) & BLACK_BIT) | ((a & b) & WHITE_BIT)
}

// Where the nodes end after one that is stored at `end`. It asks that this fits, and no public function asks anything:
// the crate above has its own.
pub(crate) fn end_after(code: u8, a: u8, b: u8, start: usize, end: usize) -> usize
    requires { end + 1 < 2 ^ 64 }
    ensures { result ≡ end_after code a b start end }
{
    if code != 0 {
        return start;
    }
    if a != 0 || b != 0 {
        return end;
    }
    end + 1
}
