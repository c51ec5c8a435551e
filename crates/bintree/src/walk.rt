// Where a tree ends, and whether an expression is well-formed: one walk tells both.
ghost use Rattle.std.specs.Prelude.{◌≡◌, ◌≤◌};
ghost use Rattle.std.specs.Int.Count.{count_trailing_zeros};
ghost use Rattle.universe.specs.Questions.{voxels_left};
ghost use Rattle.universe.specs.Universe.{most_levels};
ghost use Rattle.universe.specs.Told.{number_told};
ghost use Rattle.bintree.specs.Reading.{read_at};
ghost use Rattle.bintree.specs.Answers.{well_formed_refusal};
ghost use Rattle.bintree.specs.Walks.{walked, tree_end};

use universe::{Refusal, Universe};

// The voxels of a block with so many levels left: what the universe answers, without its check that there are so few.
#[tactic(auto, using(crate::proofs::Walks::voxels_laws))]
pub(crate) fn voxels_of(levels: u64) -> u64
    requires { levels ≤ most_levels }
    ensures { result ≡ voxels_left levels }
{
    1 << levels
}

// The levels left to the smallest of the blocks whose voxels are `owed`, no two of them of one size.
pub(crate) fn levels_of(owed: u64) -> u64
    ensures { result ≡ count_trailing_zeros 64 owed }
{
    u64::from(owed.trailing_zeros())
}

// Walks over the tree of at most `left` levels that begins at `at`, and tells the place after it, where there is one.
// `owed` counts the voxels of the high halves still to come: one bit for each, at the levels left to it. Here and in the
// recursions the expression, the place and the levels left are no struct: a half has another place and a level less, so
// it would be made anew at each. For the same reason `left ≤ most_levels` is asked of a number, and is in no type.
pub(crate) fn walk(expression: &[u8], at: usize, left: u64) -> Option<usize>
    requires { left ≤ most_levels }
    ensures { result ≡ walked at (read_at expression.now left at) }
{
    let mut levels = left;
    let mut owed: u64 = 0;
    for place in at..expression.len() {
        match expression[place] {
            b'(' => {
                if levels == 0 {
                    return None;
                }
                levels -= 1;
                owed += voxels_of(levels);
            }
            b'B' | b'W' => {
                if owed == 0 {
                    return Some(place + 1);
                }
                levels = levels_of(owed);
                owed -= voxels_of(levels);
            }
            _ => return None,
        }
    }
    None
}

// The place after the tree that begins at `at`; none where there is no tree, or axes or bits are refused.
#[tactic(auto, using(crate::proofs::Walks::end_laws))]
pub fn tree_end(universe: Universe, expressions: &[u8], at: usize) -> Option<usize>
    ensures { result ≡ tree_end universe expressions.now at }
{
    universe.check().ok()?;
    walk(expressions, at, universe.levels())
}

// Refused where axes or bits are, and where an expression is not well-formed.
#[tactic(auto, using(crate::proofs::Walks::formed_laws))]
pub fn well_formed(universe: Universe, expression: &[u8]) -> Result<(), Refusal>
    ensures { number_told result ≡ well_formed_refusal universe expression.now }
{
    universe.check()?;
    if walk(expression, 0, universe.levels()) != Some(expression.len()) {
        return Err(Refusal::BadExpression);
    }
    Ok(())
}
