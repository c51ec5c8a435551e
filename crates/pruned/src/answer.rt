// What a pruned conversion answers.
ghost use Rattle.std.specs.Prelude.{◌≡◌};
ghost use Rattle.pruned.specs.declared.answer.Unconverted.TheVariants.{Refused};
ghost use Rattle.pruned.specs.Told.{number_unconverted, needed_to_convert, lacks_work};

use universe::{Refusal, Unwritten};

// So many symbols are written, and so many nodes were looked at.
#[derive(Clone, Copy, Debug, PartialEq, Eq)]
pub struct Conversion {
    pub length: u64,
    pub looked: u64,
}

// Why a conversion writes nothing: it refuses what it is given, or so many nodes of work room, or so many symbols, are
// needed, and fewer are lent.
#[derive(Clone, Copy, Debug, PartialEq, Eq)]
pub enum Unconverted {
    Refused(Refusal),
    ShortOfWork(u64),
    ShortOfSymbols(u64),
}

impl Unconverted {
    pub fn number(self) -> u64
        ensures { result ≡ number_unconverted self }
    {
        match self {
            Unconverted::Refused(refusal) => refusal.number(),
            Unconverted::ShortOfWork(_) | Unconverted::ShortOfSymbols(_) => Unwritten::NO_ROOM,
        }
    }

    // How much is needed: nodes or symbols with 6, and 0 with another number (rule 16.4).
    pub fn needed(self) -> u64
        ensures { result ≡ needed_to_convert self }
    {
        match self {
            Unconverted::Refused(_) => 0,
            Unconverted::ShortOfWork(nodes) => nodes,
            Unconverted::ShortOfSymbols(symbols) => symbols,
        }
    }

    // Whether it is work room that is lacking.
    pub fn lacks_work(self) -> bool
        ensures { result ≡ lacks_work self }
    {
        matches!(self, Unconverted::ShortOfWork(_))
    }
}

impl From<Refusal> for Unconverted {
    ghost from_gives = { λ r e. e ≡ Refused r };

    fn from(refusal: Refusal) -> Unconverted {
        Unconverted::Refused(refusal)
    }
}
