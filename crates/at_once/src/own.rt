// The numbers of sure and possible contact: a row's reach, and the words of a ball, a digit for each voxel of a block
// by the mark over the voxel's own block. Doubt is contact where `possible`, and else it is none.
ghost use Rattle.std.specs.Prelude.{◌≡◌, ◌+◌, ◌<◌};
ghost use Rattle.universe.specs.Universe.{most_axes};
ghost use Rattle.csg.specs.Halfspace.{row_at};
ghost use Rattle.csg.specs.Ball.{ball_count};
ghost use Rattle.csg.specs.Surfaces.{surfaces_of, ball};
ghost use Rattle.masks.specs.Block.{block_mask};
ghost use Rattle.masks.specs.Own.{own_surface, own_ball, reach, reached, spread};
ghost use Rattle.at_once.specs.Words.{RowNamed, SmallOff, WordBlock, word_block};
ghost use Rattle.at_once.specs.Own.{
  SmallReach,
  SpreadReady,
  SpreadsReady,
  spread_square,
  spread_squares,
  OwnBallOver,
};

use crate::digits::{WORD_LEVELS, side_by_side};
use crate::word::{most_of_ball, offs_of_ball};
use universe::Universe;

// How far the value of row i lies, over a voxel, below and above that at its centre, doubled.
pub(crate) fn reach_of_row(rows: &[i64], i: usize) -> u64
    requires { RowNamed rows.now i }
    ensures { result ≡ reach most_axes (row_at rows.now i) }
{
    let first = csg::ROW_LENGTH * i + 1;
    let one = rows[first].unsigned_abs();
    let two = rows[first + 1].unsigned_abs();
    let three = rows[first + 2].unsigned_abs();
    let four = rows[first + 3].unsigned_abs();
    one + two + three + four
}

// What is added to twice the value at the centre, so that 0 or more is contact.
pub(crate) fn reached(possible: bool, reach: u64) -> i64
    requires { SmallReach reach }
    ensures { result ≡ reached possible reach }
{
    if possible {
        return reach.saturating_sub(1) as i64;
    }
    -(reach as i64)
}

// Twice how far the nearest or the farthest point of a voxel is along an axis, by how far its centre is, doubled.
fn spread(possible: bool, off: i64) -> u64
    requires { SmallOff off }
    ensures { result ≡ spread possible off }
{
    let size = off.unsigned_abs();
    if possible {
        return size.saturating_sub(1);
    }
    size + 1
}

// The square of that along an axis that is one of the place axes.
fn spread_square(possible: bool, axis: usize, places: usize, off: i64) -> u64
    requires { SpreadReady axis places off }
    ensures { result ≡ spread_square possible axis places off }
{
    if places <= axis {
        return 0;
    }
    let far = spread(possible, off);
    far * far
}

// The sum of the squares.
fn spread_sum(possible: bool, places: usize, offs: [i64; csg::MOST_PLACES]) -> u64
    requires { SpreadsReady places offs }
    ensures { result ≡ spread_squares possible places offs }
{
    let one = spread_square(possible, 0, places, offs[0]);
    let two = spread_square(possible, 1, places, offs[1]);
    let three = spread_square(possible, 2, places, offs[2]);
    one + two + three
}

// The word of a ball over a block: of one voxel the test of its squares, of twice as many the digits of both halves.
fn own_ball_word(
    possible: bool,
    places: usize,
    table: &[usize; Universe::MOST_LEVELS as usize],
    lengths: &[u64; WORD_LEVELS],
    left: u64,
    offs: [i64; csg::MOST_PLACES],
    most: i64,
) -> u64
    requires { OwnBallOver places table.now lengths.now left offs most }
    ensures { (ball : OwnBallOver places table.now lengths.now left offs most)
        → result ≡ block_mask (own_ball possible ball.over.block.universe ball.over.ball) left
        ball.over.block }
{
    if left == 0 {
        return (spread_sum(possible, places, offs) as i64 <= most) as u64;
    }
    let n = left - 1;
    let low = own_ball_word(possible, places, table, lengths, n, offs, most);
    let j = n as usize;
    let axis = table[j];
    if places <= axis {
        return side_by_side(low, low, n);
    }
    let length = lengths[j] as i64;
    let off = offs[axis];
    let mut further = offs;
    further[axis] = off + 2 * length;
    let high = own_ball_word(possible, places, table, lengths, n, further, most);
    side_by_side(low, high, n)
}

// The word of ball i over the block with these low places.
pub(crate) fn own_word_of_ball(
    possible: bool,
    axes: usize,
    rows: &[i64],
    balls: &[i64],
    i: usize,
    table: &[usize; Universe::MOST_LEVELS as usize],
    lengths: &[u64; WORD_LEVELS],
    low: &[u64; Universe::MOST_AXES as usize],
    left: u64,
) -> u64
    requires fact { let surfaces = surfaces_of rows.now balls.now in
        WordBlock surfaces axes table.now lengths.now low.now left }
    requires i_bound { i < ball_count balls.now }
    ensures { let surfaces = surfaces_of rows.now balls.now in
        ((block : WordBlock surfaces axes table.now lengths.now low.now left)
        → result ≡ block_mask (own_surface possible surfaces block.universe (ball i)) left (word_block block)) }
{
    let offs = offs_of_ball(balls, i, low);
    let most = most_of_ball(balls, i);
    own_ball_word(possible, axes - 1, table, lengths, left, offs, most)
}
