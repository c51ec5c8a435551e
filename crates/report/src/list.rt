// Whether bytes are a list of expressions, one straight after another: one walk over each.
ghost use Rattle.std.specs.Prelude.{◌≡◌};
ghost use Rattle.universe.specs.Universe.{universe_refusal};
ghost use Rattle.universe.specs.Told.{number_told};
ghost use Rattle.report.specs.Lists.{list_refusal};

use universe::{Refusal, Universe};

// A list has at most so many expressions (rule 5.5).
pub const MOST_EXPRESSIONS: u64 = 256;

// Refused where bytes are no list of expressions: each begins where the one before it ends, and the last ends where
// the bytes do.
pub(crate) fn check_list(universe: Universe, expressions: &[u8]) -> Result<(), Refusal>
    requires { universe_refusal universe ≡ 0 }
    ensures { number_told result ≡ list_refusal universe expressions.now }
{
    let mut at = 0;
    for _ in 0..MOST_EXPRESSIONS {
        if at == expressions.len() {
            return Ok(());
        }
        at = bintree::tree_end(universe, expressions, at).ok_or(Refusal::BadExpression)?;
    }
    if at == expressions.len() {
        return Ok(());
    }
    Err(Refusal::BadExpression)
}
