// Monthly rules: the days of a month that serve, and the first day from one on that meets the rule.
ghost use Rattle.std.specs.Prelude.{◌≡◌, ◌+◌, ◌%◌, ◌≤◌, ◌<◌, eqb};
ghost use Rattle.calendar.specs.Gregorian.{day_count, date_at, month_number};
ghost use Rattle.recurrence_set.specs.Meets.{ordinal_serves, month_day_serves, monthly_meets};
ghost use Rattle.recurrence_set.specs.Searches.{NextOf, Marks, MarksOnly, serves_in_month, names_none, month_first, Counting};

use crate::Stepped;
use crate::sets::{each_week, least, turned};
use calendar::by_days::ByDays;
use calendar::dates::{Date, Month};
use calendar::rules::Rule;

// How the days of a month fall: how many there are, and the weekday of the first.
#[derive(Clone, Copy)]
struct Layout {
    days: u64,
    begins: u64,
    ghost few: { days ≤ 31 },
    ghost week: { begins < 7 },
}

// The days of BYDAY in a month.
fn by_day_set(by: ByDays, month: Layout) -> u64
    ensures { Marks month.days (λ k. ordinal_serves by month.days (k + 1) ((k + month.begins) % 7)) result }
{
    let front = turned(each_week(by.weekdays) | by.ordinals, month.begins);
    let back = turned(by.lastordinals, (month.begins + month.days) % 7);
    front | (back >> (35 - month.days))
}

// The days of BYMONTHDAY in a month.
fn by_month_day_set(by: ByDays, month: Layout) -> u64
    ensures { Marks month.days (λ k. month_day_serves by month.days (k + 1)) result }
{
    by.monthdays | (by.lastmonthdays >> (31 - month.days))
}

// The day of the month v.
fn one_day_set(v: u64) -> u64
    ensures { Marks 31 (λ k. eqb (k + 1) v) result }
{
    if v < 1 || 31 < v {
        return 0;
    }
    1 << (v - 1)
}

// The days that serve, also behind the end of the month; v is the start's day of the month.
fn serving_set(rule: Rule, v: u64, month: Layout) -> u64
    ensures { Marks month.days (serves_in_month rule v month.days month.begins) result }
{
    if rule.by.day {
        return by_day_set(rule.days, month);
    }
    if rule.by.monthday {
        return by_month_day_set(rule.days, month);
    }
    one_day_set(v)
}

// The days of a month that serve.
fn month_set(rule: Rule, v: u64, month: Layout) -> u64
    ensures { MarksOnly month.days (serves_in_month rule v month.days month.begins) result }
{
    serving_set(rule, v, month) % (1 << month.days)
}

// The months from 0000-01 to a date's month.
fn month_number(d: Date) -> u64
    ensures { result ≡ month_number d }
{
    (d.year as u64) * 12 + (d.month as u64).saturating_sub(1)
}

// The first day that serves, if one does, from a month on and so many days behind its first, by every so many months.
fn months_from(stepped: Stepped, start: Date, month: u64, skip: u64, places: u32) -> Option<u64>
    requires { skip ≤ 30 }
    ensures { places ≤ day_count → Counting stepped.rule start month → month_first month + skip ≤ month_first (month + 1) → NextOf (monthly_meets stepped.rule start) places (month_first month + skip) result }
{
    let rule = stepped.rule;
    let v = start.day as u64;
    let interval = rule.interval as u64;
    let mut at = month;
    let mut past = skip;
    // It goes on by the interval and ends where `Month::at` does; a range with `step_by` would name that end a second time.
    while let Some(m) = Month::at(at) {
        let first = m.first as u64;
        if places as u64 <= first + past {
            return None;
        }
        let layout = Layout {
            days: m.days as u64,
            begins: (first + 5) % 7,
        };
        if let Some(day) = least(month_set(rule, v, layout) >> past) {
            return Some(first + past + day);
        }
        past = 0;
        at += interval;
    }
    None
}

// BYDAY names no day that a month can have.
#[tactic(auto, unfolding(crate::specs::Searches::names_none))]
fn names_none(rule: Rule) -> bool
    ensures { result ≡ names_none rule }
{
    let days = rule.days;
    rule.by.day
        && days.weekdays % 128 == 0
        && days.ordinals % 34359738368 == 0
        && days.lastordinals % 34359738368 == 0
}

// The first day from one on that meets a monthly rule, if one does.
pub(crate) fn monthly_from(stepped: Stepped, start: Date, from: u32, places: u32) -> Option<u64>
    requires { from < places }
    ensures { places ≤ day_count → month_number start ≤ month_number (date_at from) → NextOf (monthly_meets stepped.rule start) places from result }
{
    if names_none(stepped.rule) {
        return None;
    }
    let d = Date::from_day_number(from)?;
    let interval = stepped.rule.interval as u64;
    let month = month_number(d);
    let begin = month_number(start);
    if month < begin {
        return None;
    }
    let out = (month - begin) % interval;
    if out == 0 {
        return months_from(stepped, start, month, d.day as u64 - 1, places);
    }
    months_from(stepped, start, month + (interval - out), 0, places)
}
