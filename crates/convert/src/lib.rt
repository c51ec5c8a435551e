// The raw and the merged expression of a tree, or of two intersected, written into lent room: the length written, or
// why nothing is.
#![tactic(auto)]

mod ball;
mod block;
mod carried;
mod conversion;
mod judge;
mod lay;
mod marks;
mod scene;
mod scratch;
mod verdict;

pub use conversion::{merged_of_one, merged_of_two, raw_of_one, raw_of_two};
pub use lay::{is_one, symbol_of};
pub use marks::{BLACK_BIT, WHITE_BIT, tested_code};
pub use scene::check_scene;
pub use scratch::MOST_SCRATCH;
pub use verdict::{Clearance, verdict_of_two};
