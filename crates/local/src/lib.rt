// Raw conversions and the verdict of two trees in lent room, with the first conversion's answers: pruned in work room of
// the call's own where the nodes fit, by codes where they do not.
#![tactic(auto)]

mod conversion;
mod verdict;
mod work;

pub use conversion::{raw_of_one, raw_of_two};
pub use verdict::verdict_of_two;
