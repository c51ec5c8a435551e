// Keyed movers: a Box that moves evenly from key to key against one static tree, every frame by its own stretch.
#![tactic(auto)]

mod judge;
mod key;
mod scene;
mod step;
mod stretch;

ghost use Rattle.std.specs.Prelude.{◌≡◌, IfOk, OnOk};
ghost use Rattle.universe.specs.Told.{number_told};
ghost use Rattle.universe.specs.Accepting.{accepted_told};
ghost use Rattle.csg.specs.Surfaces.{surfaces_of};
ghost use Rattle.convert.specs.Told.{clearance_told};
ghost use Rattle.mover.specs.Keys.{mover_of, mover_lent};
ghost use Rattle.mover.specs.Answers.{axes_refusal, static_refusal, mover_refusal, mover_answer, mover_buffer};
ghost use Rattle.mover.specs.Frames.{surfaces_lent};
ghost use Rattle.mover.specs.Ready.{Ready};

use convert::Clearance;
use csg::{BALL_LENGTH, ROW_LENGTH};
use judge::{StaticTree, has_room, judge_all, largest_need};
pub use key::{CORNER_LENGTH, LEAST_KEYS, MOST_KEYS};
use key::{check_corners, check_still};
pub use scene::{BOX_ROWS, MOST_STATIC};
use standin::Proxy;
use step::Mover;
use universe::{Accepted, Refusal, Universe, Unwritten};

// The axes of a proxy, and so of a mover.
const PROXY_AXES: u64 = 4;

// BadUniverse where the universe is refused or has not a proxy's axes.
#[tactic(auto, unfolding(crate::specs::Answers::axes_refusal))]
fn check_axes(universe: Universe) -> Result<Accepted, Refusal>
    ensures is { (accepted_told result).refusal ≡ axes_refusal universe }
    ensures same { IfOk result (λ accepted. accepted.universe ≡ universe) }
{
    match universe.accepted() {
        Ok(accepted) if universe.axes == PROXY_AXES => Ok(accepted),
        _ => Err(Refusal::BadUniverse),
    }
}

// BadRows where static rows are refused, or leave no room for the Box's.
#[tactic(auto, unfolding(crate::specs::Answers::static_refusal))]
fn check_static(universe: Universe, rows: &[i64]) -> Result<(), Refusal>
    ensures { number_told result ≡ static_refusal universe rows.now }
{
    if csg::check_rows(universe, rows).is_err() || MOST_STATIC < rows.len() / ROW_LENGTH {
        return Err(Refusal::BadRows);
    }
    Ok(())
}

// What refuses the call before room is asked for; where nothing does, the stretches can be judged.
#[tactic(auto, unfolding(crate::specs::Answers::mover_checks))]
fn check(universe: Universe, mover: Mover<'_>, tree: StaticTree<'_>) -> Result<Accepted, Refusal>
    ensures is { let number = (accepted_told result).refusal in
        let tree = tree.entry in
        number ≡ mover_refusal universe (mover_lent mover.entry) (surfaces_lent tree) tree.words.now }
    ensures same { IfOk result (λ accepted. accepted.universe ≡ universe) }
    ensures ready { let tree = tree.entry in
        OnOk result (Ready universe (mover_lent mover.entry) (surfaces_lent tree) tree.words.now) }
{
    let accepted = check_axes(universe)?;
    check_still(mover.size)?;
    check_corners(mover.corners)?;
    mover.check_keys(accepted)?;
    mover.check_steps()?;
    check_static(universe, tree.rows)?;
    csg::check_balls(universe, tree.balls)?;
    csg::check_tree(
        (tree.rows.len() / ROW_LENGTH) as u64,
        (tree.balls.len() / BALL_LENGTH) as u64,
        tree.words,
    )?;
    Ok(accepted)
}

// Whether a mover and a static tree share space, over all stretches from key to key: `size` is a Box that stands
// still, and each key a moment and three numbers of a near corner. Each stretch's raw expression is written into lent
// room over the one before; the length is that of the last. `NoRoom` has the largest need.
#[tactic(auto, unfolding(crate::specs::Answers::mover_answer, crate::specs::Answers::mover_buffer))]
pub fn verdict_of_mover(
    universe: Universe,
    size: Proxy,
    moments: &[u64],
    corners: &[f64],
    rows: &[i64],
    balls: &[i64],
    words: &[u16],
    out: &mut [u8],
) -> Result<Clearance, Unwritten>
    ensures result_value { let m = mover_of size moments.now corners.now in
        let surfaces = surfaces_of rows.now balls.now in
        clearance_told result ≡ mover_answer universe m surfaces words.now out.old }
    ensures out_after { let m = mover_of size moments.now corners.now in
        let surfaces = surfaces_of rows.now balls.now in
        out.new ≡ mover_buffer universe m surfaces words.now out.old }
{
    let mover = Mover {
        size,
        moments,
        corners,
    };
    let tree = StaticTree { rows, balls, words };
    let accepted = check(universe, mover, tree)?;
    if !has_room(accepted, words, out.len()) {
        let need = largest_need(universe, mover, tree);
        if (out.len() as u64) < need {
            return Err(Unwritten::NoRoom(need));
        }
    }
    judge_all(universe, mover, tree, out)
}
