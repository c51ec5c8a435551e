// The archive for C, C++, Rust and Python: each function of crate `export` under its own name, with the same parameters
// and the same clauses, word for word. A slice goes over as a pointer and a count, a refusal as a number, since C has
// no `Result`.
#![tactic(auto)]

pub mod answers;
pub mod conversions;
pub mod documents;
pub mod expressions;
pub mod movers;
pub mod octrees;
pub mod proxies;
pub mod prunings;
pub mod reports;
pub mod sweeps;
pub mod verdicts;
