// The values that the recursions over blocks carry: of each row that a code names, its value at the low end of the
// block at hand. They begin as the rows' offsets; into a high half they move by the coefficient along the axis that is
// halved, doubled as often as 1 is to the half's length, and out of it they move back. So no product stands in the
// recursions but those of balls. A row moves once, however many codes name it: its round, 0 or 1, tells whether it has.
ghost use Rattle.std.specs.Prelude.{◌≡◌, true, false, cond, ◌-◌, ◌^◌, ◌≤◌, ◌<◌, pos, ◌*ℤ◌};
ghost use Rattle.convert.specs.Small.{SmallCoefficient, SmallPlace};
ghost use Rattle.at_once.specs.Words.{doublings_of};
ghost use Rattle.at_once.specs.Moves.{
  times_of,
  stepped,
  SmallStep,
  RowJob,
  RowMoved,
  MoveJob,
  Moved,
  Unmoved,
  BeginJob,
  Begun,
};

use crate::leaf::{is_row_side, row_of};
use universe::Universe;

// How often 1 is doubled to a length that is a power of two: one call of the library, which needs no public function.
pub(crate) fn doublings(length: u64) -> u64
    ensures { result ≡ doublings_of length }
{
    u64::trailing_zeros(length) as u64 % 64
}

// The same for each side of a block.
pub(crate) fn times_of(
    side: &[u64; Universe::MOST_AXES as usize],
) -> [u64; Universe::MOST_AXES as usize]
    ensures { result ≡ times_of side.now }
{
    let first = doublings(side[0]);
    let second = doublings(side[1]);
    let third = doublings(side[2]);
    let fourth = doublings(side[3]);
    [first, second, third, fourth]
}

// The amount of a coefficient and a length to which 1 is doubled so often: the coefficient, doubled so often. It asks
// that this fits, and no public function asks anything: crate `pruned` has its own.
pub(crate) fn amount(coefficient: i64, times: u64) -> i64
    requires small_coefficient { SmallCoefficient coefficient }
    requires times_bound { times < 64 }
    requires small_place { SmallPlace (2 ^ times) }
    ensures { result ≡ coefficient *ℤ pos (2 ^ times) }
{
    coefficient << times
}

// A value with an amount more, or less.
fn stepped(up: bool, value: i64, step: i64) -> i64
    requires { SmallStep value step }
    ensures { result ≡ stepped up value step }
{
    if up {
        return value + step;
    }
    value - step
}

// Moves the value of a row that is of this round, and gives it the other round.
fn move_row(
    up: bool,
    rows: &[i64],
    row: usize,
    axis: usize,
    times: u64,
    values: &mut [i64; csg::MOST_ROWS],
    rounds: &mut [u8; csg::MOST_ROWS],
    round: u8,
)
    requires { RowJob rows.now row axis times values.old rounds.old round }
    ensures { RowMoved up rows.now row axis times round values.old rounds.old
        values.new rounds.new }
{
    let is_due = rounds[row] == round;
    if is_due {
        let step = amount(rows[csg::ROW_LENGTH * row + 1 + axis], times);
        let value = values[row];
        values[row] = stepped(up, value, step);
        rounds[row] = 1 - round;
    }
}

// Moves the values of the rows that codes name by half of a block's length along an axis, up into its high half or down
// out of it.
pub(crate) fn move_values(
    up: bool,
    rows: &[i64],
    axis: usize,
    half: u64,
    codes: &[u16],
    from: usize,
    count: usize,
    values: &mut [i64; csg::MOST_ROWS],
    rounds: &mut [u8; csg::MOST_ROWS],
    round: u8,
)
    requires { MoveJob rows.now axis half codes.now from count values.old rounds.old round }
    ensures { Moved up rows.now axis half codes.now from count round values.old
        rounds.old values.new rounds.new }
{
    let times = doublings(half);
    let to = from + count;
    for i in from..to {
        let code = codes[i];
        if is_row_side(code) {
            move_row(up, rows, row_of(code), axis, times, values, rounds, round);
        }
    }
}

// Moves them where a test holds.
pub(crate) fn move_where(
    test: bool,
    up: bool,
    rows: &[i64],
    axis: usize,
    half: u64,
    codes: &[u16],
    from: usize,
    count: usize,
    values: &mut [i64; csg::MOST_ROWS],
    rounds: &mut [u8; csg::MOST_ROWS],
    round: u8,
)
    requires { test ≡ true → MoveJob rows.now axis half codes.now from count values.old rounds.old round }
    ensures moved { test ≡ true → Moved up rows.now axis half codes.now from count round
        values.old rounds.old values.new rounds.new }
    ensures unmoved { test ≡ false → Unmoved values.old rounds.old values.new
        rounds.new }
{
    if test {
        move_values(
            up, rows, axis, half, codes, from, count, values, rounds, round,
        );
    }
}

// The round after a move that is made where a test holds.
pub(crate) fn turned(test: bool, round: u8) -> u8
    requires { round ≤ 1 }
    ensures { result ≡ cond test (1 - round) round }
{
    if test {
        return 1 - round;
    }
    round
}

// The values of the rows that the first codes name, at the low end of the universe: their offsets.
pub(crate) fn begin(rows: &[i64], codes: &[u16], count: usize, values: &mut [i64; csg::MOST_ROWS])
    requires { BeginJob rows.now codes.now count values.old }
    ensures { Begun rows.now codes.now count values.new }
{
    for i in 0..count {
        let code = codes[i];
        if is_row_side(code) {
            let row = row_of(code);
            values[row] = rows[csg::ROW_LENGTH * row];
        }
    }
}
