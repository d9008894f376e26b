ghost use Rattle.std.specs.Prelude.{◌≡◌};
ghost use Rattle.concord.specs.Letters.{letter_of};

use date::faults::Cause;

// The letters that name a calendar.
#[derive(Clone, Copy)]
pub(crate) enum Letter {
    G,
    J,
}

impl Letter {
    // Every letter, in the order of the columns.
    pub(crate) const ALL: [Letter; 2] = [Letter::G, Letter::J];
}

// The letter that a byte writes. Another capital names no calendar, and any other byte is no letter.
impl TryFrom<u8> for Letter {
    type Error = Cause;

    ghost try_from_gives = { λ byte read. read ≡ letter_of byte };

    fn try_from(byte: u8) -> Result<Letter, Cause> {
        match byte {
            b'G' => Ok(Letter::G),
            b'J' => Ok(Letter::J),
            b'A'..=b'Z' => Err(Cause::NoLetter),
            _ => Err(Cause::Malformed),
        }
    }
}
