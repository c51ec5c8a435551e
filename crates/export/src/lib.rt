// The face for C and Rust (rule 11.1): numbers and slices only. Each function returns the number of its refusal, 0
// where it accepts, and no `Result`, which C does not have. It is read first: a refused answer is zeros, its verdict
// Clear and its colour WHITE.
// `durbizhan_leaves` and `durbizhan_lines` alone return a count; what is refused has its line in the latter.
// Crate `export_c` has each of them again, under its own name, for callers that are not in Rattle.
#![tactic(auto)]

pub mod answers;
pub mod conversions;
pub mod documents;
pub mod expressions;
pub mod movers;
pub mod octrees;
pub mod proxies;
pub mod prunings;
pub mod reports;
pub mod sweeps;
pub mod verdicts;

ghost use Rattle.std.specs.Prelude.{◌≡◌};
ghost use Rattle.export.specs.Arrays.{universe_of};

use universe::Universe;

// A universe of its three numbers.
fn universe_of(axes: u64, bits: u64, frame_bits: u64) -> Universe
    ensures { result ≡ universe_of axes bits frame_bits }
{
    Universe {
        axes,
        bits,
        frame_bits,
    }
}
