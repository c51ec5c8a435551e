// The whole universe: its tables and arrays, the codes of both trees, and what the recursions come to.
ghost use Rattle.std.specs.Prelude.{◌≡◌};
ghost use Rattle.universe.specs.Universe.{universe_refusal};
ghost use Rattle.universe.specs.Questions.{axes_left};
ghost use Rattle.bintree.specs.Verdicts.{verdict};
ghost use Rattle.csg.specs.Surfaces.{surfaces_of};
ghost use Rattle.csg.specs.Raw.{raw};
ghost use Rattle.convert.specs.Blocks.{whole_sides, trees_of};
ghost use Rattle.at_once.specs.Words.{Tabled};
ghost use Rattle.at_once.specs.Answers.{span_of};
ghost use Rattle.at_once.specs.Whole.{BothJob, BothLoaded, WholeReady};

use crate::answer::{Ends, verdict_from};
use crate::count::count_block;
use crate::digits::WORD_LEVELS;
use crate::end::end_block;
use crate::load::load;
use crate::moves::begin;
use crate::prune::MOST_SHAPES;
use bintree::{Contact, Verdict};
use universe::Universe;

// The most codes that stand at once: those of two trees for each level, and once more.
pub(crate) const MOST_CODES: usize = (Universe::MOST_LEVELS as usize + 1) * 2 * csg::MOST_WORDS;

// The sides of the whole universe; 0 along an axis that it lacks: four calls, which a public function would make no
// plainer.
pub(crate) fn whole_sides(universe: Universe) -> [u64; Universe::MOST_AXES as usize]
    ensures { result ≡ whole_sides universe }
{
    [
        universe.side(0),
        universe.side(1),
        universe.side(2),
        universe.side(3),
    ]
}

// The lengths along their axis of the halves of blocks, by the levels left, as far as words go: each is twice the one
// before along that axis.
pub(crate) fn lengths_of(
    universe: Universe,
    table: &[usize; Universe::MOST_LEVELS as usize],
) -> [u64; WORD_LEVELS]
    requires universe_value { universe_refusal universe ≡ 0 }
    requires table_value { table.now ≡ axes_left universe }
    ensures { Tabled universe table.now result }
{
    let stop = universe.levels().min(WORD_LEVELS as u64) as usize;
    let mut lengths = [1u64; WORD_LEVELS];
    let mut side = [1u64; Universe::MOST_AXES as usize];
    for left in 0..stop {
        let axis = table[left];
        let length = side[axis];
        lengths[left] = length;
        side[axis] = 2 * length;
    }
    lengths
}

// Loads the codes of two trees, one behind the other, and the values of the rows that they name.
pub(crate) fn load_both(
    rows: &[i64],
    first: &[u16],
    second: &[u16],
    codes: &mut [u16],
    starts: &mut [usize; MOST_SHAPES],
    values: &mut [i64; csg::MOST_ROWS],
)
    requires { BothJob rows.now first.now second.now codes.old starts.old values.old }
    ensures { let codes₀ = codes.old in
        let values₀ = values.old in
        ((job : BothJob rows.now first.now second.now codes₀ starts.old
        values₀)
        → BothLoaded job codes.new starts.new values.new) }
{
    load(first, codes, 0, starts);
    load(second, codes, first.len(), starts);
    begin(rows, codes, first.len() + second.len(), values);
}

// The verdict of two trees that no check refuses, over a window.
pub(crate) fn whole_verdict(
    universe: Universe,
    rows: &[i64],
    balls: &[i64],
    first: &[u16],
    second: &[u16],
    first_frame: u64,
    last_frame: u64,
) -> Verdict
    requires { let surfaces = surfaces_of rows.now balls.now in
        WholeReady universe surfaces first.now second.now first_frame last_frame }
    ensures { let surfaces = surfaces_of rows.now balls.now in
        let trees = trees_of surfaces first.now second.now in
        result ≡ verdict universe (raw universe surfaces trees) first_frame last_frame }
{
    let table = universe.axes_left();
    let lengths = lengths_of(universe, &table);
    let mut low = [0u64; Universe::MOST_AXES as usize];
    let mut side = whole_sides(universe);
    let mut codes = [0u16; MOST_CODES];
    let mut starts = [0usize; MOST_SHAPES];
    let mut marks = [0u8; MOST_SHAPES];
    let mut belows = [0u64; MOST_SHAPES];
    let mut aboves = [0u64; MOST_SHAPES];
    let mut values = [0i64; csg::MOST_ROWS];
    let mut rounds = [0u8; csg::MOST_ROWS];
    load_both(rows, first, second, &mut codes, &mut starts, &mut values);
    let none = Contact {
        first: last_frame,
        last: first_frame,
        voxels: 0,
    };
    let contact = count_block(
        universe.axes as usize,
        rows,
        balls,
        &table,
        &lengths,
        &mut low,
        &mut side,
        universe.levels(),
        &mut codes,
        0,
        first.len() + second.len(),
        &mut starts,
        &mut marks,
        &mut belows,
        &mut aboves,
        first_frame,
        last_frame,
        none,
        &mut values,
        &mut rounds,
        0,
    );
    verdict_from(contact)
}

// Its ends alone: the first frame is sought from past the window on, and from it on the last.
pub(crate) fn whole_span(
    universe: Universe,
    rows: &[i64],
    balls: &[i64],
    first: &[u16],
    second: &[u16],
    first_frame: u64,
    last_frame: u64,
) -> Option<Ends>
    requires { let surfaces = surfaces_of rows.now balls.now in
        WholeReady universe surfaces first.now second.now first_frame last_frame }
    ensures { let surfaces = surfaces_of rows.now balls.now in
        let trees = trees_of surfaces first.now second.now in
        result ≡ span_of (verdict universe (raw universe surfaces trees) first_frame last_frame) }
{
    let axes = universe.axes as usize;
    let levels = universe.levels();
    let count = first.len() + second.len();
    let past = last_frame + 1;
    let table = universe.axes_left();
    let lengths = lengths_of(universe, &table);
    let mut low = [0u64; Universe::MOST_AXES as usize];
    let mut side = whole_sides(universe);
    let mut codes = [0u16; MOST_CODES];
    let mut starts = [0usize; MOST_SHAPES];
    let mut marks = [0u8; MOST_SHAPES];
    let mut belows = [0u64; MOST_SHAPES];
    let mut aboves = [0u64; MOST_SHAPES];
    let mut values = [0i64; csg::MOST_ROWS];
    let mut rounds = [0u8; csg::MOST_ROWS];
    load_both(rows, first, second, &mut codes, &mut starts, &mut values);
    let sooner = end_block(
        false,
        axes,
        rows,
        balls,
        &table,
        &lengths,
        &mut low,
        &mut side,
        levels,
        &mut codes,
        0,
        count,
        &mut starts,
        &mut marks,
        &mut belows,
        &mut aboves,
        first_frame,
        last_frame,
        past,
        &mut values,
        &mut rounds,
        0,
    );
    if sooner == past {
        return None;
    }
    let later = end_block(
        true,
        axes,
        rows,
        balls,
        &table,
        &lengths,
        &mut low,
        &mut side,
        levels,
        &mut codes,
        0,
        count,
        &mut starts,
        &mut marks,
        &mut belows,
        &mut aboves,
        first_frame,
        last_frame,
        sooner,
        &mut values,
        &mut rounds,
        0,
    );
    Some(Ends {
        first: sooner,
        last: later,
    })
}
