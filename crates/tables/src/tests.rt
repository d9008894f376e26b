use calendar::calendar::Calendar;
use carrying::carry::{carry, span};
use date::dates::Date;
use date::days::weekday;
use date::faults::{Cause, Fault};
use date::refusals::hand_on;
use reckoning::reckoned::Reckoned;
use solar::gregorian::Gregorian;
use solar::julian::Julian;
use std::test::Fail;

// The field at which five numbers are refused, and 0 where they make a date.
fn misfit(numbers: (i64, i64, i64, i64, i64)) -> usize {
    let (era, year, mark, month, day) = numbers;
    Date::new(era, year, mark, month, day).map_or_else(|fault| fault.place, |_| 0)
}

// The day of a date without era and mark, or the refusal.
fn day_of<C: Calendar>(calendar: &C, year: i64, month: i64, day: i64) -> Result<i32, Fault> {
    calendar.day_of(Date::new(0, year, 0, month, day)?)
}

// A refusal as it is first given.
fn refused(cause: Cause, place: usize, day: i32, kind: u8) -> Result<i32, Fault> {
    Err(Fault {
        cause,
        place,
        day,
        kind,
        level: 0,
    })
}

#[test]
fn each_field_has_its_range(rt: HostRuntime) {
    let cases = [
        ((0, 1, 0, 1, 1), 0),
        ((255, 99_999, 1, 63, 63), 0),
        ((0, -9_999, 0, 1, 1), 0),
        ((-1, 1, 0, 1, 1), 1),
        ((256, 100_000, 2, 64, 64), 1),
        ((0, -10_000, 0, 1, 1), 2),
        ((0, 100_000, 2, 0, 0), 2),
        ((0, 1, -1, 1, 1), 3),
        ((0, 1, 2, 0, 64), 3),
        ((0, 1, 0, 0, 0), 4),
        ((0, 1, 0, 64, 1), 4),
        ((0, 1, 0, 1, 0), 5),
        ((0, 1, 0, 1, 64), 5),
        ((i64::MIN, i64::MAX, 0, 1, 1), 1),
        ((0, i64::MAX, 0, 1, 1), 2),
        ((0, 1, 0, 1, i64::MIN), 5),
    ];
    for (numbers, place) in cases {
        assert_eq!(rt; misfit(numbers), place);
    }
}

#[test]
fn leap_days(rt: HostRuntime) {
    let gregorian = Reckoned::new(Gregorian);
    let julian = Reckoned::new(Julian);
    assert_eq!(rt; day_of(&gregorian, 4, 2, 29), Ok(1_155));
    assert_eq!(rt;
        day_of(&gregorian, 100, 2, 29),
        refused(Cause::Field, 5, 0, 1)
    );
    assert_eq!(rt; day_of(&gregorian, 400, 2, 29), Ok(145_791));
    assert_eq!(rt;
        day_of(&gregorian, 1900, 2, 29),
        refused(Cause::Field, 5, 0, 1)
    );
    assert_eq!(rt; day_of(&julian, 4, 2, 29), Ok(1_153));
    assert_eq!(rt; day_of(&julian, 100, 2, 29), Ok(36_217));
    assert_eq!(rt; day_of(&julian, 400, 2, 29), Ok(145_792));
    assert_eq!(rt; day_of(&julian, 1900, 2, 29), Ok(693_667));
}

#[test]
fn edges_of_the_range(rt: HostRuntime) {
    let gregorian = Reckoned::new(Gregorian);
    let julian = Reckoned::new(Julian);
    assert_eq!(rt; day_of(&gregorian, 1, 1, 1), Ok(1));
    assert_eq!(rt; day_of(&gregorian, 9_999, 12, 31), Ok(3_652_059));
    assert_eq!(rt;
        day_of(&gregorian, 10_000, 1, 1),
        refused(Cause::OutsideRange, 0, 3_652_060, 1)
    );
    assert_eq!(rt; day_of(&gregorian, 0, 1, 1), refused(Cause::Field, 2, 0, 1));
    assert_eq!(rt;
        day_of(&julian, 1, 1, 1),
        refused(Cause::OutsideRange, 0, -1, 2)
    );
    assert_eq!(rt; day_of(&julian, 1, 1, 3), Ok(1));
    assert_eq!(rt; day_of(&julian, 9_999, 10, 19), Ok(3_652_059));
    assert_eq!(rt;
        day_of(&julian, 9_999, 10, 20),
        refused(Cause::OutsideRange, 0, 3_652_060, 2)
    );
    for day in [i32::MIN, -1, 0, 3_652_060, i32::MAX] {
        assert_eq!(rt;
            julian.date_on(day).err(),
            refused(Cause::OutsideRange, 0, 0, 2).err()
        );
    }
}

#[test]
fn weekdays(rt: HostRuntime) {
    assert_eq!(rt; weekday(1), Ok(1));
    assert_eq!(rt; weekday(639_797), Ok(4));
    assert_eq!(rt; weekday(3_652_059), Ok(5));
    let outside = Fault {
        cause: Cause::OutsideRange,
        place: 0,
        day: 0,
        kind: 0,
        level: 0,
    };
    assert_eq!(rt; weekday(0), Err(outside));
    assert_eq!(rt; weekday(3_652_060), Err(outside));
}

#[test]
fn carried_and_spanned(rt: HostRuntime) -> Result<(), Fail> {
    let gregorian = Reckoned::new(Gregorian);
    let julian = Reckoned::new(Julian);
    let new = Date::new(0, 1752, 0, 9, 14)?;
    let old = Date::new(0, 1752, 0, 9, 2)?;
    let carried = carry(&gregorian, new, &julian)?;
    assert!(rt; carried.year() == 1752 && carried.month() == 9 && carried.day() == 3);
    assert_eq!(rt; span(&julian, old, &gregorian, new)?, 1);
    assert_eq!(rt; span(&gregorian, new, &julian, old)?, -1);
    let none = Date::new(0, 1, 0, 13, 1)?;
    match (
        carry(&gregorian, none, &julian),
        span(&gregorian, new, &julian, none),
    ) {
        (Err(first), Err(second)) => {
            assert!(rt;
                first.party.number() == 1 && second.party.number() == 2 && second.fault.kind == 2
            );
            Ok(())
        },
        _ => Err(Fail::new("a month 13 was carried")),
    }
}

#[test]
fn levels_stop_at_255(rt: HostRuntime) {
    let high = Fault {
        cause: Cause::NoDate,
        place: 0,
        day: 0,
        kind: 1,
        level: 254,
    };
    let answer: Result<i32, Fault> = hand_on(hand_on(Err(high)));
    assert_eq!(rt; answer, Err(Fault { level: 255, ..high }));
}
