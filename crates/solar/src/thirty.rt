ghost use Rattle.solar.specs.Thirty.{days, before_month};

use date::division::divide;
use reckoning::months::Months;

// The months that the Coptic and the French year share: twelve of 30 days, and a thirteenth that has the days left over.
#[derive(Clone, Copy)]
pub struct Thirty {
    pub(crate) leap: bool,
}

impl Months for Thirty {
    ghost months = { λ _. 13 };

    ghost length = { λ y m. days y.leap m };

    ghost before = { λ y m. before_month m };

    fn count(&self) -> u8 {
        13
    }

    fn length(&self, month: u8) -> u8 {
        if month <= 12 {
            30
        } else if self.leap {
            6
        } else {
            5
        }
    }

    fn elapsed(&self, month: u8) -> u16 {
        30 * (u16::from(month) - 1)
    }

    // The hint is the month itself.
    fn month_near(&self, nth: u16) -> u8 {
        divide(u64::from(nth) + 29, 30).0.min(13) as u8
    }
}
