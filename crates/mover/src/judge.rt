// The stretches one after the other: how much room each needs, and the verdicts of all, joined.
ghost use Rattle.std.specs.Prelude.{◌≡◌, ◌++◌, ◌+◌, ◌-◌, ◌≤◌, leb, length, drop};
ghost use Rattle.universe.specs.Room.{room};
ghost use Rattle.csg.specs.Words.{most_words, halfspace_words, ball_words};
ghost use Rattle.convert.specs.Told.{clearance_told};
ghost use Rattle.convert.specs.Answers.{done_clearance};
ghost use Rattle.mover.specs.Keys.{mover_lent};
ghost use Rattle.mover.specs.Stretches.{stretches};
ghost use Rattle.mover.specs.Frames.{surfaces_lent, stretch_raw, stretch_verdict, joined, mover_verdict};
ghost use Rattle.mover.specs.Answers.{box_rows, largest_need, after_stretches};
ghost use Rattle.mover.specs.Ready.{ReadyAt, Ready, Fits, Joining};

use crate::scene::{BOX_ROWS, MOST_NUMBERS, box_words, lay_rows};
use crate::step::Mover;
use bintree::{Contact, Verdict};
use convert::Clearance;
use csg::ROW_LENGTH;
use universe::{Accepted, Universe, Unwritten};

// A static tree as it is lent: its rows and balls, and the words that name them. The universe stands beside it and the
// mover in no struct of three: most checks ask it of one of them alone. Nothing compares or prints it.
#[derive(Clone, Copy)]
pub(crate) struct StaticTree<'a> {
    pub rows: &'a [i64],
    pub balls: &'a [i64],
    pub words: &'a [u16],
}

// How many symbols the raw expression of stretch i has.
fn need_of(universe: Universe, mover: Mover<'_>, tree: StaticTree<'_>, i: usize) -> u64
    requires { ReadyAt universe (mover_lent mover) (surfaces_lent tree) tree.words.now i }
    ensures { let tree = tree.entry in
        let raw = stretch_raw universe (mover_lent mover.entry) (surfaces_lent tree) tree.words.now i in
        result ≡ length raw }
{
    let mut all = [0; MOST_NUMBERS];
    let end = lay_rows(mover, i, tree.rows, &mut all);
    let own = box_words(tree.rows.len() / ROW_LENGTH);
    match local::raw_of_two(universe, &all[..end], tree.balls, tree.words, &own, &mut []) {
        Ok(length) => length,
        Err(unwritten) => unwritten.needed(),
    }
}

// The largest need of any stretch.
pub(crate) fn largest_need(universe: Universe, mover: Mover<'_>, tree: StaticTree<'_>) -> u64
    requires { Ready universe (mover_lent mover) (surfaces_lent tree) tree.words.now }
    ensures { let tree = tree.entry in
        result ≡ largest_need universe (mover_lent mover.entry) (surfaces_lent tree) tree.words.now }
{
    let mut need = 0;
    for i in 0..mover.stretches() {
        let next = need_of(universe, mover, tree, i);
        need = need.max(next);
    }
    need
}

// Whether as much room is lent as the formula says for any stretch.
pub(crate) fn has_room(accepted: Accepted, words: &[u16], lent: usize) -> bool
    requires { length words.now ≤ most_words }
    ensures { let leaves = halfspace_words words.now + box_rows in
        result ≡ leb (room accepted.universe leaves (ball_words words.now)) lent }
{
    let leaves = csg::halfspace_words(words) + BOX_ROWS as u64;
    accepted.room(leaves, csg::ball_words(words)) <= lent as u64
}

// The verdict on stretch i, whose raw expression is written into lent room, where it fits.
fn judge_stretch(
    universe: Universe,
    mover: Mover<'_>,
    tree: StaticTree<'_>,
    i: usize,
    out: &mut [u8],
) -> Result<Clearance, Unwritten>
    requires fact { ReadyAt universe (mover_lent mover) (surfaces_lent tree) tree.words.now i }
    requires i_in_bounds { let raw = stretch_raw universe (mover_lent mover) (surfaces_lent tree) tree.words.now i in
        length raw ≤ length out.old }
    ensures result_value { let m = mover_lent mover.entry in
        let surfaces = surfaces_lent tree.entry in
        let words = tree.entry.words.now in
        let length = length (stretch_raw universe m surfaces words i) in
        clearance_told result ≡ done_clearance (stretch_verdict universe m surfaces words i) length }
    ensures out_after { let tree = tree.entry in
        let symbols = stretch_raw universe (mover_lent mover.entry) (surfaces_lent tree) tree.words.now i in
        out.new ≡ symbols ++ drop (length symbols) out.old }
{
    let mut all = [0; MOST_NUMBERS];
    let end = lay_rows(mover, i, tree.rows, &mut all);
    let own = box_words(tree.rows.len() / ROW_LENGTH);
    local::verdict_of_two(
        universe,
        &all[..end],
        tree.balls,
        tree.words,
        &own,
        mover.moments[i],
        mover.moments[i + 1] - 1,
        out,
    )
}

// The verdicts of frames and of later ones, joined.
#[tactic(auto, unfolding(crate::specs::Frames::joined))]
fn joined(a: Verdict, b: Verdict) -> Verdict
    requires { Joining a b }
    ensures { result ≡ joined a b }
{
    match (a, b) {
        (Verdict::Clear, later) => later,
        (earlier, Verdict::Clear) => earlier,
        (Verdict::Hit(earlier), Verdict::Hit(later)) => Verdict::Hit(Contact {
            first: earlier.first,
            last: later.last,
            voxels: earlier.voxels + later.voxels,
        }),
    }
}

// The verdict of all stretches, each of which fits; their raw expressions are written one over the other.
pub(crate) fn judge_all(
    universe: Universe,
    mover: Mover<'_>,
    tree: StaticTree<'_>,
    out: &mut [u8],
) -> Result<Clearance, Unwritten>
    requires { Fits universe (mover_lent mover) (surfaces_lent tree) tree.words.now out.old }
    ensures result_value { let m = mover_lent mover.entry in
        let surfaces = surfaces_lent tree.entry in
        let words = tree.entry.words.now in
        let length = length (stretch_raw universe m surfaces words (stretches m.moments - 1)) in
        clearance_told result ≡ done_clearance (mover_verdict universe m surfaces words) length }
    ensures out_after { let m = mover_lent mover.entry in
        let surfaces = surfaces_lent tree.entry in
        out.new ≡ after_stretches universe m surfaces tree.entry.words.now out.old (stretches m.moments) }
{
    let mut verdict = Verdict::Clear;
    let mut length = 0;
    for i in 0..mover.stretches() {
        let next = judge_stretch(universe, mover, tree, i, out)?;
        verdict = joined(verdict, next.verdict);
        length = next.length;
    }
    Ok(Clearance { verdict, length })
}
