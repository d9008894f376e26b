ghost use Rattle.std.specs.Prelude.{unsigned_abs};
ghost use Rattle.solar.specs.Civil.{days, before_month};

use date::division::divide;
use reckoning::months::Months;

// The months that the Julian and the Gregorian year share.
#[derive(Clone, Copy)]
pub struct Civil {
    pub(crate) leap: bool,
}

impl Months for Civil {
    ghost months = { λ _. 12 };

    ghost length = { λ y m. days y.leap m };

    ghost before = { λ y m. unsigned_abs (before_month y.leap m) };

    fn count(&self) -> u8 {
        12
    }

    fn length(&self, month: u8) -> u8 {
        match month {
            2 if self.leap => 29,
            2 => 28,
            4 | 6 | 9 | 11 => 30,
            _ => 31,
        }
    }

    fn elapsed(&self, month: u8) -> u16 {
        let full = divide(367 * u64::from(month) - 362, 12).0;
        let less = if month <= 2 {
            0
        } else if self.leap {
            1
        } else {
            2
        };
        (full - less) as u16
    }

    // It needs one correction at most.
    fn month_near(&self, nth: u16) -> u8 {
        divide(12 * u64::from(nth) + 380, 367).0.min(12) as u8
    }
}
