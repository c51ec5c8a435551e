// Measuring what merging comes to: how long the merged expression is, and how many symbols are held back at most while
// the expression is received.
ghost use Rattle.std.specs.Prelude.{◌≡◌, ◌+◌, ◌*◌, ◌^◌, ◌<◌, ◌≤◌, max};
ghost use Rattle.universe.specs.Universe.{most_levels};
ghost use Rattle.bintree.specs.Reading.{read_at};
ghost use Rattle.bintree.specs.Walks.{run_on, measure_answer};

use crate::lay::is_alike;

// What measuring one tree tells: the place after it, the symbol of a merged tree that is one leaf or else 0, the merged
// tree's length, and the largest count so far, after all of its symbols but the last.
#[derive(Clone, Copy)]
pub(crate) struct Measured {
    pub(crate) end: usize,
    pub(crate) symbol: u8,
    pub(crate) length: usize,
    pub(crate) held: u64,
}

// How many symbols could still become one symbol `colour` after a low part that came to `low`.
#[tactic(auto, unfolding(crate::specs::Walks::run_on))]
fn run_on(colour: u8, low: u8, run: u64) -> u64
    requires { run ≤ 2 * most_levels }
    ensures { result ≡ run_on colour low run }
{
    if low == colour { run + 2 } else { 0 }
}

// The largest count so far, where so many symbols could still become one `B`, and so many one `W`.
fn counted(most: u64, black: u64, white: u64) -> u64
    ensures { result ≡ max most (max black white) }
{
    most.max(black.max(white))
}

// The length of a merged tree that is halved, from its two parts'.
fn halved_length(low: usize, high: usize) -> usize
    requires { low + high + 1 < 2 ^ 64 }
    ensures { result ≡ low + high + 1 }
{
    low + high + 1
}

// Measures the merged tree of at most `left` levels that begins at `at`, where there is one; `black` symbols before it
// could still become one `B`, and `white` one `W`, and `most` is the largest count so far.
pub(crate) fn measure(
    expression: &[u8],
    at: usize,
    left: u64,
    black: u64,
    white: u64,
    most: u64,
) -> Option<Measured>
    requires { (black + 2 * left ≤ 2 * most_levels) × (white + 2 * left ≤ 2 * most_levels) }
    ensures { result ≡ measure_answer at black white most (read_at expression.now left at) }
{
    let symbol = *expression.get(at)?;
    match symbol {
        b'(' => {
            if left == 0 {
                return None;
            }
            let open = counted(most, black + 1, white + 1);
            let low = measure(expression, at + 1, left - 1, black + 1, white + 1, open)?;
            let b = run_on(b'B', low.symbol, black);
            let w = run_on(b'W', low.symbol, white);
            let between = counted(low.held, b, w);
            let high = measure(expression, low.end, left - 1, b, w, between)?;
            let length = halved_length(low.length, high.length);
            if is_alike(low.symbol, high.symbol) {
                return Some(Measured {
                    end: high.end,
                    symbol: low.symbol,
                    length: 1,
                    held: high.held,
                });
            }
            Some(Measured {
                end: high.end,
                symbol: 0,
                length,
                held: high.held,
            })
        }
        b'B' | b'W' => Some(Measured {
            end: at + 1,
            symbol,
            length: 1,
            held: most,
        }),
        _ => None,
    }
}
