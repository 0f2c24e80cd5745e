// The days that BYDAY and BYMONTHDAY name, as sets of small numbers.
ghost use Rattle.std.specs.Prelude.{◌≡◌, ◌<◌};
ghost use Rattle.calendar.specs.Sets.{with};
ghost use Rattle.calendar.specs.Rules.{weekday_place, no_days, with_day, with_month_day};

use crate::items::day_from;
use crate::rules::{Weekday, weekday_of};
use octets::{peek, sign_length, value_of};

// Weekdays; the n-th of a month, and the n-th from its end; days of a month, from its front and from its end.
#[derive(Clone, Copy)]
pub struct ByDays {
    pub weekdays: u64,
    pub ordinals: u64,
    pub lastordinals: u64,
    pub monthdays: u64,
    pub lastmonthdays: u64,
}

// Weekdays, counted from Monday.
#[tactic(auto, unfolding(crate::specs::Rules::weekday_place))]
pub fn weekday_place(w: Weekday) -> u64
    ensures { result ≡ weekday_place w }
{
    w as u64
}

// No days.
pub(crate) fn no_days() -> ByDays
    ensures { result ≡ no_days }
{
    ByDays {
        weekdays: 0,
        ordinals: 0,
        lastordinals: 0,
        monthdays: 0,
        lastmonthdays: 0,
    }
}

// The set with a number.
fn added(set: u64, k: u64) -> u64
    requires { k < 64 }
    ensures { result ≡ with set k }
{
    set | (1 << k)
}

// The days with a value of BYDAY.
pub(crate) fn with_day(days: ByDays, s: &[u8]) -> ByDays
    ensures { result ≡ with_day days s.now }
{
    let back = peek(s, 0) == b'-';
    let at = day_from(s);
    let front = &s[0..at];
    let from = sign_length(front);
    let n = value_of(&front[from..], 5);
    let w = weekday_place(weekday_of(&s[at..]));
    if n == 0 {
        return ByDays {
            weekdays: added(days.weekdays, w),
            ..days
        };
    }
    if !back {
        return ByDays {
            ordinals: added(days.ordinals, w + 7 * (n - 1)),
            ..days
        };
    }
    let week = if n <= 5 { 5 - n } else { 5 };
    ByDays {
        lastordinals: added(days.lastordinals, w + 7 * week),
        ..days
    }
}

// The days with a value of BYMONTHDAY.
pub(crate) fn with_month_day(days: ByDays, s: &[u8]) -> ByDays
    ensures { result ≡ with_month_day days s.now }
{
    let back = peek(s, 0) == b'-';
    let from = sign_length(s);
    let n = value_of(&s[from..], 31);
    if n < 1 {
        return days;
    }
    if n > 31 {
        return days;
    }
    if back {
        return ByDays {
            lastmonthdays: added(days.lastmonthdays, 31 - n),
            ..days
        };
    }
    ByDays {
        monthdays: added(days.monthdays, n - 1),
        ..days
    }
}
