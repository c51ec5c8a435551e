// The pruned conversion: raw and merged, of one tree and of two, carrying from a block to its halves only what is left
// of the trees, in lent room.
#![tactic(auto)]

mod answer;
mod ball;
mod conversion;
mod lay;
mod leaf;
mod load;
mod lone;
mod marks;
mod pair;
mod prune;
mod round;
mod scratch;
mod single;
mod whole;

pub use answer::{Conversion, Unconverted};
pub use conversion::{merged_of_one, merged_of_two, raw_of_one, raw_of_two};
pub use marks::{joined_code, side_code, turned_code};
pub use prune::{MOST_SHAPES, whole_mark};
pub use scratch::MOST_SCRATCH;
