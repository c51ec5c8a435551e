// What a mover is refused for before any row is looked at: its Box, its corners and its keys.
ghost use Rattle.std.specs.Prelude.{◌≡◌, true};
ghost use Rattle.universe.specs.Told.{number_told};
ghost use Rattle.standin.specs.Sixteenths.{corner_limit, normal_limit, is_taken};
ghost use Rattle.standin.specs.Rows.{takes_triple};
ghost use Rattle.mover.specs.Keys.{is_still, still_refusal, corners_refusal, is_rising, are_within, keys_refusal};

use crate::step::Mover;
use standin::{Proxy, Triple};
use universe::{Accepted, Refusal};

// How many keys a mover may have, and the numbers of a corner (rule 15.1).
pub const LEAST_KEYS: usize = 2;

pub const MOST_KEYS: usize = 64;

pub const CORNER_LENGTH: usize = 3;

// Whether a displacement, which is taken, is 0.
fn is_still(displacement: Triple) -> bool
    requires { takes_triple normal_limit displacement ≡ true }
    ensures { result ≡ is_still displacement }
{
    let v = standin::corner_sixteenths(displacement).unwrap();
    v.x == 0 && v.y == 0 && v.z == 0
}

// BadProxy unless the Box is taken and stands still.
pub(crate) fn check_still(size: Proxy) -> Result<(), Refusal>
    ensures { number_told result ≡ still_refusal size }
{
    if standin::box_row_count(size) == 0 || !is_still(size.displacement) {
        return Err(Refusal::BadProxy);
    }
    Ok(())
}

// Whether one number of a corner is taken.
fn is_taken(number: f64) -> bool
    ensures { result ≡ is_taken corner_limit number }
{
    let alike = Triple {
        x: number,
        y: number,
        z: number,
    };
    standin::corner_sixteenths(alike).is_some()
}

// BadProxy where a number of the corners, of all that are lent, is not taken.
pub(crate) fn check_corners(corners: &[f64]) -> Result<(), Refusal>
    ensures { number_told result ≡ corners_refusal corners.now }
{
    if corners.iter().all(|number| is_taken(*number)) {
        Ok(())
    } else {
        Err(Refusal::BadProxy)
    }
}

// Whether each moment is later than the one before.
fn is_rising(moments: &[u64]) -> bool
    ensures { result ≡ is_rising moments.now }
{
    moments.is_sorted_by(|earlier, later| earlier < later)
}

// Whether each moment is at most so late.
fn are_within(most: u64, moments: &[u64]) -> bool
    ensures { result ≡ are_within most moments.now }
{
    moments.iter().all(|moment| *moment <= most)
}

impl Mover<'_> {
    // BadKeys where there are too few keys or too many, not a whole corner for each, or moments that do not rise or lie
    // past the end of the last frame.
    pub(crate) fn check_keys(self, accepted: Accepted) -> Result<(), Refusal>
        ensures { number_told result ≡ keys_refusal accepted.universe self.entry.moments.now self.entry.corners.now }
    {
        let count = self.moments.len();
        if count < LEAST_KEYS
            || MOST_KEYS < count
            || self.corners.len() != CORNER_LENGTH * count
            || !is_rising(self.moments)
            || !are_within(accepted.frames(), self.moments)
        {
            return Err(Refusal::BadKeys);
        }
        Ok(())
    }
}
