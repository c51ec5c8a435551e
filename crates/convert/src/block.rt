// The low places of a block and its sides, and how often its halves have been halved across its axis.
ghost use Rattle.std.specs.Prelude.{◌≡◌, ◌+◌, ◌^◌, ◌<◌, length, get_or, set};
ghost use Rattle.universe.specs.Universe.{most_axes, universe_refusal};
ghost use Rattle.universe.specs.Questions.{axes_left};
ghost use Rattle.convert.specs.Blocks.{whole_sides, Halved};

use universe::Universe;

// The sides of the whole universe; 0 along an axis that it lacks. The crates above have the same four calls: a public
// function for them would be no plainer than the question that they ask.
#[tactic(auto, unfolding(lemmas::specs::Grid::listed))]
pub(crate) fn whole_sides(universe: Universe) -> [u64; Universe::MOST_AXES as usize]
    ensures { result ≡ whole_sides universe }
{
    [
        universe.side(0),
        universe.side(1),
        universe.side(2),
        universe.side(3),
    ]
}

// The low places of the high half of a block with these, so much further along an axis.
pub(crate) fn high_lows(
    low: &[u64; Universe::MOST_AXES as usize],
    axis: usize,
    half: u64,
) -> [u64; Universe::MOST_AXES as usize]
    requires low_len { length low.now ≡ most_axes }
    requires axis_lt_most_axes { axis < most_axes }
    requires half_bound { get_or low.now axis 0 + half < 2 ^ 64 }
    ensures { result ≡ set low.now axis (get_or low.now axis 0 + half) }
{
    let mut high = *low;
    high[axis] += half;
    high
}

// At place n how often the halves of a block with n + 1 levels left have been halved across its axis.
pub(crate) fn turns_left(
    universe: Universe,
    axes: &[usize; Universe::MOST_LEVELS as usize],
) -> [u64; Universe::MOST_LEVELS as usize]
    requires universe_value { universe_refusal universe ≡ 0 }
    requires axes_value { axes.now ≡ axes_left universe }
    ensures { Halved universe result }
{
    let mut turns = [0u64; Universe::MOST_LEVELS as usize];
    let mut counts = [0u64; Universe::MOST_AXES as usize];
    for left in (0..universe.levels() as usize).rev() {
        let axis = axes[left];
        counts[axis] += 1;
        turns[left] = counts[axis];
    }
    turns
}
