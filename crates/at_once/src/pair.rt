// Two values in one number, 32 digits apart and each with 2^30 more, so that digit 30 of either is 1 exactly where the
// value is 0 or more: of 64 voxels 32 sums.
ghost use Rattle.std.specs.Prelude.{◌≡◌, ◌+◌, ◌*◌, ◌^◌, pos, ◌+ℤ◌};
ghost use Rattle.std.specs.Int.Signed.{le_z};
ghost use Rattle.lemmas.specs.Grid.{count};
ghost use Rattle.masks.specs.Leaves.{row_mask};
ghost use Rattle.at_once.specs.Words.{step_at, paired, OnePair, PairReady, FewSteps, TwiceSteps, FewValues};

use crate::digits::WORD_LEVELS;

// What is added to each of the two, the place of the second one, and a number in both places.
const MORE: i64 = 0x4000_0000;

// Values no further apart than this, some of which are 0 or more and some less, have room.
pub(crate) const MOST_APART: i64 = 0x2000_0000;

const PLACE: i64 = 0x1_0000_0000;

const BOTH: i64 = 0x1_0000_0001;

// The digits of two values: the second one's is digit 32.
fn pair_of_one(pair: i64) -> u64
    requires { OnePair pair }
    ensures { (job : OnePair pair)
        → result ≡ count (le_z (pos 0) job.second) * 2 ^ 32 + count (le_z (pos 0) job.first) }
{
    (pair as u64 >> 30) & 0x1_0000_0001
}

// The digits of twice as many values: above those of the low half those of the high half, one step further.
fn pair_of_two(pair: i64, steps: &[i64; WORD_LEVELS]) -> u64
    requires { PairReady 1 pair steps.now }
    ensures { (job : PairReady 1 pair steps.now)
        → result ≡ row_mask job.second job.step 1 * 2 ^ 32 + row_mask job.first job.step 1 }
{
    pair_of_one(pair) | pair_of_one(pair + steps[0]) << 1
}

fn pair_of_four(pair: i64, steps: &[i64; WORD_LEVELS]) -> u64
    requires { PairReady 2 pair steps.now }
    ensures { (job : PairReady 2 pair steps.now)
        → result ≡ row_mask job.second job.step 2 * 2 ^ 32 + row_mask job.first job.step 2 }
{
    pair_of_two(pair, steps) | pair_of_two(pair + steps[1], steps) << 2
}

fn pair_of_eight(pair: i64, steps: &[i64; WORD_LEVELS]) -> u64
    requires { PairReady 3 pair steps.now }
    ensures { (job : PairReady 3 pair steps.now)
        → result ≡ row_mask job.second job.step 3 * 2 ^ 32 + row_mask job.first job.step 3 }
{
    pair_of_four(pair, steps) | pair_of_four(pair + steps[2], steps) << 4
}

pub(crate) fn pair_of_sixteen(pair: i64, steps: &[i64; WORD_LEVELS]) -> u64
    requires { PairReady 4 pair steps.now }
    ensures { (job : PairReady 4 pair steps.now)
        → result ≡ row_mask job.second job.step 4 * 2 ^ 32 + row_mask job.first job.step 4 }
{
    pair_of_eight(pair, steps) | pair_of_eight(pair + steps[3], steps) << 8
}

fn pair_of_thirty_two(pair: i64, steps: &[i64; WORD_LEVELS]) -> u64
    requires { PairReady 5 pair steps.now }
    ensures { (job : PairReady 5 pair steps.now)
        → result ≡ row_mask job.second job.step 5 * 2 ^ 32 + row_mask job.first job.step 5 }
{
    pair_of_sixteen(pair, steps) | pair_of_sixteen(pair + steps[4], steps) << 16
}

// The steps of both values, of as many digits.
pub(crate) fn both_steps(steps: &[i64; WORD_LEVELS]) -> [i64; WORD_LEVELS]
    requires { FewSteps steps.now }
    ensures { TwiceSteps steps.now result }
{
    [
        steps[0] * BOTH,
        steps[1] * BOTH,
        steps[2] * BOTH,
        steps[3] * BOTH,
        steps[4] * BOTH,
        0,
    ]
}

// The value at the first voxel and that at the first of the high half in one number.
pub(crate) fn first_pair(v: i64, steps: &[i64; WORD_LEVELS]) -> i64
    requires { FewValues v steps.now }
    ensures { result ≡ paired v (v +ℤ step_at steps.now 5) }
{
    (v + steps[5] + MORE) * PLACE + (v + MORE)
}

// The 64 digits from a value and its steps, all so small that two values have room in one number.
pub(crate) fn pairs_word(v: i64, steps: &[i64; WORD_LEVELS]) -> u64
    requires { FewValues v steps.now }
    ensures { result ≡ row_mask v (step_at steps.now) 6 }
{
    let both = both_steps(steps);
    pair_of_thirty_two(first_pair(v, steps), &both)
}
