// Words: a digit for each voxel of a block, the first voxel's the lowest.
ghost use Rattle.std.specs.Prelude.{◌≡◌, ◌+◌, ◌*◌, ◌/◌, ◌%◌, ◌^◌, ◌≤◌, ◌<◌};
ghost use Rattle.std.specs.Int.Count.{ones};
ghost use Rattle.masks.specs.Mask.{all_ones};
ghost use Rattle.at_once.specs.Words.{word_levels};

// The most levels of a block whose voxels have a digit each in one word.
pub(crate) const WORD_LEVELS: usize = 6;

// The word of a block with so many levels left whose voxels are all black.
pub(crate) fn all_ones(left: u64) -> u64
    requires { left ≤ word_levels }
    ensures { result ≡ all_ones (2 ^ left) }
{
    0xffff_ffff_ffff_ffff >> (64 - (1u64 << left))
}

// The lowest 2^n digits of a word.
pub(crate) fn lower(word: u64, n: u64) -> u64
    requires { n < word_levels }
    ensures { result ≡ word % 2 ^ 2 ^ n }
{
    word & ((1 << (1u64 << n)) - 1)
}

// The digits above them.
pub(crate) fn upper(word: u64, n: u64) -> u64
    requires { n < word_levels }
    ensures { result ≡ word / 2 ^ 2 ^ n }
{
    word >> (1u64 << n)
}

// Two words of 2^n digits as one, the second above the first.
pub(crate) fn side_by_side(low: u64, high: u64, n: u64) -> u64
    requires n_lt_word_levels { n < word_levels }
    requires low_bound { low < 2 ^ 2 ^ n }
    requires high_bound { high < 2 ^ 2 ^ n }
    ensures { result ≡ high * 2 ^ 2 ^ n + low }
{
    low | high << (1u64 << n)
}

// How many digits of a word are ones.
pub(crate) fn ones_of(word: u64) -> u64
    ensures { result ≡ ones word }
{
    u64::count_ones(word) as u64
}
