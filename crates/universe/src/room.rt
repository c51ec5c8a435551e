// The room question: how many symbols an expression takes at the most.
ghost use Rattle.std.specs.Prelude.{◌≡◌, ◌-◌, ◌≤◌, ◌<◌, get_or};
ghost use Rattle.lemmas.specs.Sums.{product};
ghost use Rattle.universe.specs.Told.{room_told};
ghost use Rattle.universe.specs.Room.{count_of, room, room_answer, FewBlocks};

use crate::{Accepted, Refusal, Universe};

// The product over the axes of the blocks along each, less 0 or 1.
#[tactic(auto, unfolding(lemmas::specs::Sums::product))]
fn product_less(axes: usize, blocks: [u64; Universe::MOST_AXES as usize], less: u64) -> u64
    requires few_blocks { FewBlocks axes blocks }
    requires less_bound { less ≤ 1 }
    ensures { result ≡ product axes (λ i. get_or blocks i 0 - less) }
{
    let mut found: u64 = 1;
    for along in &blocks[..axes] {
        found *= along - less;
    }
    found
}

// All blocks of a level, or without balls the leaves times the blocks that are not inner ones, if that is less. Their
// product is not formed where it exceeds all.
#[tactic(auto, using(crate::proofs::Levels::count_all))]
fn level_count(leaves: u64, balls: u64, all: u64, inner: u64) -> u64
    requires { inner < all }
    ensures { result ≡ count_of leaves balls all inner }
{
    let outer = all - inner;
    if balls != 0 || all / outer < leaves {
        all
    } else {
        leaves * outer
    }
}

impl Accepted {
    // How many symbols an expression takes at the most, for so many words that name a halfspace and so many that name a
    // ball (rules 4.7 and 4.14): level by level, the blocks along each axis doubled in turn.
    pub fn room(self, leaves: u64, balls: u64) -> u64
        ensures { result ≡ room self.universe leaves balls }
    {
        let axes = self.axes_left();
        let mut blocks = [1u64; Universe::MOST_AXES as usize];
        let mut sum: u64 = 0;
        for left in (0..self.levels() as usize).rev() {
            let all = product_less(self.universe.axes as usize, blocks, 0);
            let inner = product_less(self.universe.axes as usize, blocks, 1);
            sum += level_count(leaves, balls, all, inner);
            blocks[axes[left]] *= 2;
        }
        1 + 2 * sum
    }
}

impl Universe {
    // Room in an accepted universe; refused where it is refused.
    pub fn room(self, leaves: u64, balls: u64) -> Result<u64, Refusal>
        ensures { room_told result ≡ room_answer self leaves balls }
    {
        Ok(self.accepted()?.room(leaves, balls))
    }
}
