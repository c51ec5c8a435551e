// What comes before a conversion: the checks in their order, and room.
ghost use Rattle.std.specs.Prelude.{◌≡◌, ◌+◌};
ghost use Rattle.universe.specs.Room.{room};
ghost use Rattle.universe.specs.Told.{number_told};
ghost use Rattle.csg.specs.Surfaces.{surfaces_of};
ghost use Rattle.csg.specs.Words.{halfspace_words, ball_words};
ghost use Rattle.convert.specs.Blocks.{RoomReady};
ghost use Rattle.convert.specs.Answers.{two_trees_refusal};

use universe::{Refusal, Universe};

// Refuses the universe, the rows, the balls or a tree of a conversion of two trees, before room is asked for.
#[tactic(auto, unfolding(crate::specs::Answers::two_trees_checks))]
pub fn check_scene(
    universe: Universe,
    rows: &[i64],
    balls: &[i64],
    first: &[u16],
    second: &[u16],
) -> Result<(), Refusal>
    ensures { let surfaces = surfaces_of rows.now balls.now in
        number_told result ≡ two_trees_refusal universe surfaces first.now second.now }
{
    universe.check()?;
    csg::check_rows(universe, rows)?;
    csg::check_balls(universe, balls)?;
    let row_count = (rows.len() / csg::ROW_LENGTH) as u64;
    let ball_count = (balls.len() / csg::BALL_LENGTH) as u64;
    csg::check_tree(row_count, ball_count, first)?;
    csg::check_tree(row_count, ball_count, second)
}

// Room for the expression of two trees.
pub(crate) fn room_of(universe: Universe, first: &[u16], second: &[u16]) -> u64
    requires { RoomReady universe first.now second.now }
    ensures { let leaves = halfspace_words first.now + halfspace_words second.now in
        let balls = ball_words first.now + ball_words second.now in
        result ≡ room universe leaves balls }
{
    let leaves = csg::halfspace_words(first) + csg::halfspace_words(second);
    let balls = csg::ball_words(first) + csg::ball_words(second);
    universe.room(leaves, balls).unwrap_or(0)
}
