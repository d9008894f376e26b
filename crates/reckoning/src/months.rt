ghost use Rattle.std.specs.Prelude.{◌≡◌, ℕ, ◌≤◌};

// The months of one year: how many there are, how long each is, and how many days of the year come before each.
pub trait Months: Drop {
    ghost months: { Self → ℕ };

    ghost length: { Self → ℕ → ℕ };

    ghost before: { Self → ℕ → ℕ };

    fn count(&self) -> u8
        ensures { result ≡ months self.now };

    fn length(&self, month: u8) -> u8
        requires from { 1 ≤ month }
        requires to { month ≤ months self.now }
        ensures { result ≡ length self.now month };

    // The days of the year before the month.
    fn elapsed(&self, month: u8) -> u16
        requires from { 1 ≤ month }
        requires to { month ≤ months self.now }
        ensures { result ≡ before self.now month };

    // A month near that of the nth day of the year: where the corrections begin. No answer depends on it.
    fn month_near(&self, nth: u16) -> u8;
}
