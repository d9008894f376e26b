ghost use Rattle.std.specs.Prelude.{◌≡◌, true, ◌-ℤ◌, IfOk};
ghost use Rattle.carrying.specs.Carrying.{carried, spanned};
ghost use Rattle.calendar.specs.Parties.{told_by};
ghost use Rattle.calendar.specs.Piles.{meaning};
ghost use Rattle.carrying.specs.Law.{TheLawOfPiles};
ghost use Rattle.date.specs.Days.{within};

use calendar::calendar::Calendar;
use calendar::refusing::{Party, Refused, by_party};
use date::dates::Date;

// The day of a date in a pile, told as the party's, and within the range of days.
#[tactic(auto, using(calendar::proofs::Laws::found_inside))]
fn day_for<C: Calendar>(party: Party, pile: &C, date: Date) -> Result<i32, Refused>
    ensures value { result ≡ told_by party ((meaning (C.Calendar.pile pile.now)).of date) }
    ensures inside { IfOk result (λ n. within n ≡ true) }
{
    by_party(party, pile.day_of(date))
}

// The second day less the first.
#[tactic(auto, using(date::proofs::Keys::day_between))]
fn days_between(from: i32, to: i32) -> i32
    requires from_inside { within from ≡ true }
    requires to_inside { within to ≡ true }
    ensures { result ≡ to -ℤ from }
{
    to - from
}

// The date in the second pile on the day that carries the date in the first. The law says of all piles what their answers
// have to do with the dates that their days carry, and what becomes of a date that is carried.
pub fn carry<A: Calendar, B: Calendar>(from: &A, date: Date, to: &B) -> Result<Date, Refused>
    ensures value { result ≡ carried (meaning (A.Calendar.pile from.now)) (meaning (B.Calendar.pile to.now)) date }
    ensures law { TheLawOfPiles }
{
    let day = by_party(Party::First, from.day_of(date))?;
    by_party(Party::Second, to.date_on(day))
}

// The days from a date in the first pile to a date in the second: the second's day less the first's.
pub fn span<A: Calendar, B: Calendar>(
    first: &A,
    start: Date,
    second: &B,
    end: Date,
) -> Result<i32, Refused>
    ensures { result ≡ spanned (meaning (A.Calendar.pile first.now)) (meaning (B.Calendar.pile second.now)) start end }
{
    let from = day_for(Party::First, first, start)?;
    let to = day_for(Party::Second, second, end)?;
    Ok(days_between(from, to))
}
