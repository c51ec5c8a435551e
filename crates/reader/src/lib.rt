// A reader (rule 4.5): a lent expression, held together with a place in it. The functions over the struct are thin; the
// work is done on the slice and the place.
#![tactic(auto)]

ghost use Rattle.std.specs.Prelude.{◌≡◌};
ghost use Rattle.bintree.specs.Answers.{well_formed_refusal};
ghost use Rattle.universe.specs.Told.{number_told};
ghost use Rattle.reader.specs.Symbols.{symbol_of_byte, symbol_at, place_after, held_symbols, Holds};

use bintree::well_formed;
use universe::{Refusal, Universe};

// A symbol of an expression. Where a place has none, a reader is at its end and answers `None`.
#[derive(Clone, Copy, Debug, PartialEq, Eq)]
pub enum Symbol {
    Halved,
    Black,
    White,
}

// A lent expression and a place in it.
#[derive(Clone, Copy)]
pub struct Reader<'a> {
    pub expression: &'a [u8],
    pub place: usize,
}

// The symbol that a byte is.
#[tactic(auto, unfolding(crate::specs::Symbols::symbol_of_byte))]
fn symbol_of_byte(byte: u8) -> Option<Symbol>
    ensures { result ≡ symbol_of_byte byte }
{
    match byte {
        b'(' => Some(Symbol::Halved),
        b'B' => Some(Symbol::Black),
        b'W' => Some(Symbol::White),
        _ => None,
    }
}

// The symbol at a place of an expression; none at a place past its end, and at a byte that is no symbol.
#[tactic(auto, using(crate::proofs::Symbols::symbol_past), unfolding(crate::specs::Symbols::symbol_at))]
pub fn symbol_at(expression: &[u8], place: usize) -> Option<Symbol>
    ensures { result ≡ symbol_at expression.now place }
{
    symbol_of_byte(*expression.get(place)?)
}

// The place after the symbol at a place; the place itself where there is none.
#[tactic(auto, using(crate::proofs::Symbols::place_inside), unfolding(crate::specs::Symbols::place_after))]
pub fn place_after(expression: &[u8], place: usize) -> usize
    ensures { result ≡ place_after expression.now place }
{
    match symbol_at(expression, place) {
        Some(_) => place + 1,
        None => place,
    }
}

// Why a reader that was opened holds nothing; accepted where the expression is well-formed.
pub fn check(universe: Universe, expression: &[u8]) -> Result<(), Refusal>
    ensures { number_told result ≡ well_formed_refusal universe expression.now }
{
    well_formed(universe, expression)
}

// What a reader holds of an expression: all of it, or nothing where it is refused.
#[tactic(auto, unfolding(crate::specs::Symbols::held_symbols))]
pub fn held(universe: Universe, expression: &[u8]) -> &[u8]
    ensures { Holds universe expression.entry result }
{
    match check(universe, expression) {
        Ok(()) => expression,
        Err(_) => &expression[..0],
    }
}

// A reader at the first symbol of an expression.
pub fn open<'a>(universe: Universe, expression: &'a [u8]) -> Reader<'a>
    ensures { Holds universe expression.entry result.expression × (result.place ≡ 0) }
{
    Reader {
        expression: held(universe, expression),
        place: 0,
    }
}

// The symbol at a reader's place.
pub fn current<'a>(reader: Reader<'a>) -> Option<Symbol>
    ensures { result ≡ symbol_at reader.entry.expression.now reader.entry.place }
{
    symbol_at(reader.expression, reader.place)
}

// A reader moved on by one symbol; at the end it stays.
pub fn advanced<'a>(reader: Reader<'a>) -> Reader<'a>
    ensures { let place = place_after reader.entry.expression.now reader.entry.place in
        (result.expression ≡ reader.entry.expression) × (result.place ≡ place) }
{
    Reader {
        expression: reader.expression,
        place: place_after(reader.expression, reader.place),
    }
}

// The first symbol that a reader gives of an expression.
pub fn first(universe: Universe, expression: &[u8]) -> Option<Symbol>
    ensures { result ≡ symbol_at (held_symbols universe expression.now) 0 }
{
    current(open(universe, expression))
}
