ghost use Rattle.std.specs.Prelude.{◌≡◌};
ghost use Rattle.date.specs.Refusals.{number_of, place_of, refusal, plainly, misfitting, lifted, handed, replaced};

use crate::faults::{Cause, Fault, Field};

impl Cause {
    pub fn number(self) -> u8
        ensures { result ≡ number_of self }
    {
        self as u8
    }
}

impl Field {
    pub fn place(self) -> usize
        ensures { result ≡ place_of self }
    {
        self as usize
    }
}

impl Fault {
    // A refusal as it is first given, at level 0.
    pub fn new(cause: Cause, place: usize, day: i32, kind: u8) -> Fault
        ensures { result ≡ refusal cause place day kind }
    {
        Fault {
            cause,
            place,
            day,
            kind,
            level: 0,
        }
    }

    // A refusal that names neither a place nor a day.
    pub fn plain(cause: Cause, kind: u8) -> Fault
        ensures { result ≡ plainly cause kind }
    {
        Fault::new(cause, 0, 0, kind)
    }

    // The refusal of a field.
    pub fn misfit(field: Field, kind: u8) -> Fault
        ensures { result ≡ misfitting field kind }
    {
        Fault::new(Cause::Field, field.place(), 0, kind)
    }

    // The refusal one level higher. The level stops at 255.
    pub fn lift(self) -> Fault
        ensures { result ≡ lifted self }
    {
        Fault {
            level: self.level.saturating_add(1),
            ..self
        }
    }
}

// What a layer answers of an answer from below: a refusal is handed on one level higher, and nothing else is altered.
pub fn hand_on<X>(answer: Result<X, Fault>) -> Result<X, Fault>
    ensures { result ≡ handed answer }
{
    answer.map_err(Fault::lift)
}

// The answer, with another refusal in place of its own.
pub fn instead<X>(answer: Result<X, Fault>, fault: Fault) -> Result<X, Fault>
    ensures { result ≡ replaced fault answer }
{
    answer.map_err(|_| fault)
}
