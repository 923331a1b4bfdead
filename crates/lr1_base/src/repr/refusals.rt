// What an entry refuses, by docs/RULES.md, "Refusals" (1 to 15) and docs/RULES.md (from 16 on); the numbers stand in specs/repr/Reply.

ghost use Rattle.std.specs.Prelude.{◌≡◌};
ghost use Rattle.lr1_base.specs.repr.Reply.{number_of, place_of};

use std::fmt;

// A refusal, with its place where it has one: a record of the table, the number of a production.
#[derive(Clone, Copy, PartialEq, Eq)]
pub enum Refusal {
    // Of a table: 1 to 8.
    Words,
    Counts,
    Chain(u16),
    Owner(u16),
    TooLong(u16),
    Symbol(u16),
    Target(u16),
    Spare(u16),
    // Of what is asked, and of the way to its answer: 9 to 15.
    OutOfRange,
    EndShifted,
    TooShort,
    TooManyEdges,
    TooManyTrials,
    TooManyExamples,
    NoNode,
    // Of building states: 16 to 18; 17 is also the room of any output.
    TooManyStates,
    NoRoom,
    NoGrammar,
    // Of a yacc text: 20, 21 and 23.
    NoText,
    Misnamed,
    Unordered,
}

impl Refusal {
    // Methods here and below and no `From`: a refusal is two numbers, and a case that holds a place has no discriminant; the place is 0 and no Option, as C is told it.
    pub fn number(self) -> u16
        ensures { result ≡ number_of self }
    {
        match self {
            Refusal::Words => 1,
            Refusal::Counts => 2,
            Refusal::Chain(_) => 3,
            Refusal::Owner(_) => 4,
            Refusal::TooLong(_) => 5,
            Refusal::Symbol(_) => 6,
            Refusal::Target(_) => 7,
            Refusal::Spare(_) => 8,
            Refusal::OutOfRange => 9,
            Refusal::EndShifted => 10,
            Refusal::TooShort => 11,
            Refusal::TooManyEdges => 12,
            Refusal::TooManyTrials => 13,
            Refusal::TooManyExamples => 14,
            Refusal::NoNode => 15,
            Refusal::TooManyStates => 16,
            Refusal::NoRoom => 17,
            Refusal::NoGrammar => 18,
            Refusal::NoText => 20,
            Refusal::Misnamed => 21,
            Refusal::Unordered => 23,
        }
    }

    // 0 where it has none.
    pub fn place(self) -> u16
        ensures { result ≡ place_of self }
    {
        match self {
            Refusal::Chain(record)
            | Refusal::Owner(record)
            | Refusal::TooLong(record)
            | Refusal::Symbol(record)
            | Refusal::Target(record)
            | Refusal::Spare(record) => record,
            _ => 0,
        }
    }
}

// Its number and its place, as the programs say them.
impl fmt::Display for Refusal {
    ghost use Rattle.std.specs.Prelude.{Some, ◌++◌, ◌∷◌};
    ghost use Rattle.std.specs.Fmt.{decimal};
    ghost use Rattle.lr1_base.specs.repr.Reply.{number_of, place_of};

    ghost output = { λ refusal. Some (decimal (number_of refusal) ++ (32 ∷ decimal (place_of refusal))) };

    fn fmt<W: fmt::Write>(&self, f: &mut fmt::Formatter<W>) -> fmt::Result {
        write!(f, "{} {}", self.number(), self.place())
    }
}
