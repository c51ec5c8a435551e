// A universe that the check accepts. Who holds one asks it with no check, and each question has its answer.
ghost use Rattle.std.specs.Prelude.{◌≡◌};
ghost use Rattle.universe.specs.Universe.{universe_refusal};

use crate::{Refusal, Universe};

// That it is accepted is shown where one is made.
#[derive(Clone, Copy, Debug, PartialEq, Eq)]
pub struct Accepted {
    pub universe: Universe,
    pub ghost not_refused: { universe_refusal universe ≡ 0 },
}

impl Universe {
    ghost use Rattle.universe.specs.Accepting.{accepted_told, accepted_answer};

    // The same universe as one that is accepted; refused as the check refuses.
    pub fn accepted(self) -> Result<Accepted, Refusal>
        ensures { accepted_told result ≡ accepted_answer self }
    {
        self.check()?;
        Ok(Accepted { universe: self })
    }
}
