ghost use Rattle.std.specs.Prelude.{◌≡◌};
ghost use Rattle.calendar.specs.Parties.{number_of, told_by};

use date::faults::Fault;

// Which of two piles refused: the first or the second; or neither, where no pile was asked.
#[derive(Clone, Copy, PartialEq, Eq, Debug)]
pub enum Party {
    Neither = 0,
    First = 1,
    Second = 2,
}

// A refusal with the pile that gave it.
#[derive(Clone, Copy, PartialEq, Eq, Debug)]
pub struct Refused {
    pub fault: Fault,
    pub party: Party,
}

impl Party {
    pub fn number(self) -> u8
        ensures { result ≡ number_of self }
    {
        self as u8
    }
}

// The answer, its refusal told as the party's.
pub fn by_party<X>(party: Party, answer: Result<X, Fault>) -> Result<X, Refused>
    ensures { result ≡ told_by party answer }
{
    answer.map_err(|fault| Refused { fault, party })
}
