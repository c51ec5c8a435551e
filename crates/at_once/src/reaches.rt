// How far a row's value falls and rises over a block's voxels, from that at the first one on: by its steps.
ghost use Rattle.std.specs.Prelude.{◌≡◌};
ghost use Rattle.lemmas.specs.Sums.{total};
ghost use Rattle.at_once.specs.Words.{word_levels, SmallSteps, fall_at, rise_at};

use crate::digits::WORD_LEVELS;

// What falls by all steps: each that is negative.
pub(crate) fn fall_of(steps: &[i64; WORD_LEVELS]) -> i64
    requires { SmallSteps steps.now }
    ensures { result ≡ total word_levels (fall_at steps.now) }
{
    let one = steps[0].min(0);
    let two = steps[1].min(0);
    let three = steps[2].min(0);
    let four = steps[3].min(0);
    let five = steps[4].min(0);
    let six = steps[5].min(0);
    one + two + three + four + five + six
}

// What rises by all steps: all of them less what falls.
pub(crate) fn rise_of(steps: &[i64; WORD_LEVELS]) -> i64
    requires { SmallSteps steps.now }
    ensures { result ≡ total word_levels (rise_at steps.now) }
{
    let all = steps[0] + steps[1] + steps[2] + steps[3] + steps[4] + steps[5];
    all - fall_of(steps)
}
