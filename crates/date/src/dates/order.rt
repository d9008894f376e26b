ghost use Rattle.std.specs.Prelude.{◌≡◌};
ghost use Rattle.date.specs.Order.{earlier, ordering, StrictTotal};

use crate::dates::Date;
use std::cmp::Ordering;

impl Date {
    // Whether this date comes before the other: the first number in which they differ decides. It is Rust's derived `<`.
    #[tactic(auto, using(crate::proofs::Comparing::derived_lt))]
    pub fn is_earlier(&self, other: &Date) -> bool
        ensures { result ≡ earlier self.now other.now }
    {
        *self < *other
    }

    // How this date stands to the other, by Rust's derived `cmp`. Dates are in one line: of two different dates one is
    // earlier.
    #[tactic(auto, using(crate::proofs::Comparing::derived_cmp, crate::proofs::Keys::strict_total))]
    pub fn compare(&self, other: &Date) -> Ordering
        ensures value { result ≡ ordering self.now other.now }
        ensures line { StrictTotal }
    {
        self.cmp(other)
    }
}
