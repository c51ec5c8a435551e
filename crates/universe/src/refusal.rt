// Why a call refuses (rule 8.1). Each reason has its number there; 0 is no refusal.
ghost use Rattle.std.specs.Prelude.{◌≡◌};
ghost use Rattle.universe.specs.declared.refusal.Unwritten.TheVariants.{Refused};
ghost use Rattle.universe.specs.Told.{number_of, number_unwritten, needed_by};

// Why a call refuses what it is given. Number 6 is not among them: `Unwritten` has it.
#[derive(Clone, Copy, Debug, PartialEq, Eq)]
pub enum Refusal {
    // A file that is no scene and no shape, by its mark, its version, its zero byte or its length.
    BadFile = 1,
    // Axes or bits outside their range.
    BadUniverse = 2,
    // Rows that are not five numbers each, too many rows, or a number over its limit.
    BadRows = 3,
    // Words that are no tree over the rows.
    BadTree = 4,
    // A tree of too many words, or with too many shapes pending.
    OverfullTree = 5,
    // An expression that is not well-formed.
    BadExpression = 7,
    // A shape file's expression that is not merged.
    NotMerged = 8,
    // A voxel, path or window that the universe does not hold.
    Outside = 9,
    // A proxy's number that is not taken, or near > far; of a mover, also a displacement that is not 0.
    BadProxy = 10,
    // A mover's keys that are too few or too many, lack a whole corner, do not rise, or lie outside the frames.
    BadKeys = 11,
    // A mover's step that is no whole number of sixteenths, or too large.
    BadStep = 12,
}

impl Refusal {
    pub fn number(self) -> u64
        ensures { result ≡ number_of self }
    {
        self as u64
    }
}

// Why a call that writes into lent room writes nothing: it refuses what it is given, or so much more room is needed
// than is lent.
#[derive(Clone, Copy, Debug, PartialEq, Eq)]
pub enum Unwritten {
    Refused(Refusal),
    NoRoom(u64),
}

impl Unwritten {
    // The number of `NoRoom`.
    pub const NO_ROOM: u64 = 6;

    pub fn number(self) -> u64
        ensures { result ≡ number_unwritten self }
    {
        match self {
            Unwritten::Refused(refusal) => refusal.number(),
            Unwritten::NoRoom(_) => Unwritten::NO_ROOM,
        }
    }

    // How much is needed: symbols or bytes with 6, and 0 with another number (rule 8.3).
    pub fn needed(self) -> u64
        ensures { result ≡ needed_by self }
    {
        match self {
            Unwritten::Refused(_) => 0,
            Unwritten::NoRoom(needed) => needed,
        }
    }
}

impl From<Refusal> for Unwritten {
    ghost from_gives = { λ r u. u ≡ Refused r };

    fn from(refusal: Refusal) -> Unwritten {
        Unwritten::Refused(refusal)
    }
}
