// The recurrence set of a rule: the moments that meet it from a start on, found one after the other.
#![tactic(auto)]

mod months;
mod sets;
mod weeks;

ghost use Rattle.std.specs.Prelude.{◌≡◌, true, ℕ, ◌≤◌, ◌<◌, ◌*◌, ◌+◌};
ghost use Rattle.calendar.specs.Gregorian.{day_count};
ghost use Rattle.calendar.specs.Moments.{is_moment, second_number};
ghost use Rattle.recurrence_set.specs.Meets.{is_hourly, place_of, places_of, moment_at, every_meets};
ghost use Rattle.recurrence_set.specs.Searches.{First, NextOf, FirstOf, moment_on, unit_of, seconds_in, places_up_to, limit_of, series_of, meets_at, real_end, Founded};

use calendar::by_days::ByDays;
use calendar::dates::{DAY_COUNT, Date};
use calendar::moments::{Kind, Moment};
use calendar::rules::{ByParts, End, Frequency, Rule, Weekday};
use calendar::texts::is_clock;
use months::monthly_from;
use weeks::weekly_from;

// A rule with its start, the start's place, and how many places there are up to the rule's end. Places are hours from the first day on for HOURLY,
// days for all else.
#[derive(Clone, Copy)]
pub struct Series {
    pub rule: Rule,
    pub start: Moment,
    pub place: u32,
    pub places: u32,
}

impl Series {
    // No places.
    pub const EMPTY: Series = Series {
        rule: Rule {
            frequency: Frequency::Daily,
            interval: 1,
            end: End::Open,
            wkst: Weekday::Monday,
            by: ByParts {
                second: false,
                minute: false,
                hour: false,
                day: false,
                monthday: false,
                yearday: false,
                weekno: false,
                month: false,
                setpos: false,
            },
            days: ByDays {
                weekdays: 0,
                ordinals: 0,
                lastordinals: 0,
                monthdays: 0,
                lastmonthdays: 0,
            },
        },
        start: Moment {
            date: Date::FIRST,
            hour: 0,
            minute: 0,
            second: 0,
            kind: Kind::Day,
        },
        place: 0,
        places: 0,
    };
}

// A rule whose interval is no 0.
#[derive(Clone, Copy)]
struct Stepped {
    rule: Rule,
    ghost steps: { 1 ≤ rule.interval },
}

// The frequency is HOURLY.
#[tactic(auto, unfolding(crate::specs::Meets::is_hourly))]
fn is_hourly(f: Frequency) -> bool
    ensures { result ≡ is_hourly f }
{
    matches!(f, Frequency::Hourly)
}

// The place of a moment; 0 for what is no moment, since `series_of` answers any start with a series, and promises nothing of one that is no moment.
fn place_of(f: Frequency, m: Moment) -> u32
    ensures { is_moment m ≡ true → result ≡ place_of f m }
{
    let date = m.date;
    if !is_clock(m.hour, m.minute, m.second) {
        return 0;
    }
    let Some(n) = date.day_number() else {
        return 0;
    };
    if is_hourly(f) {
        return n * 24 + m.hour;
    }
    n
}

// How many places there are.
fn places_of(f: Frequency) -> u32
    ensures { result ≡ places_of f }
{
    if is_hourly(f) {
        return DAY_COUNT * 24;
    }
    DAY_COUNT
}

// Seconds from the first day on; 0 for what is no moment, as in `place_of`.
fn seconds_of(m: Moment) -> u64
    ensures { (is_moment m ≡ true → result ≡ second_number m) × (result ≤ 315569520000) }
{
    let date = m.date;
    if !is_clock(m.hour, m.minute, m.second) {
        return 0;
    }
    let Some(n) = date.day_number() else {
        return 0;
    };
    (((n as u64) * 24 + (m.hour as u64)) * 60 + (m.minute as u64)) * 60 + (m.second as u64)
}

// Of places of so many seconds, at t seconds in each, how many lie not behind the second u.
fn places_up_to(unit: u64, t: u64, u: u64) -> u32
    requires { (3600 ≤ unit) × (u ≤ 315569520000) }
    ensures { result ≡ places_up_to unit t u }
{
    if u < t {
        return 0;
    }
    ((u - t) / unit + 1) as u32
}

// How many places lie not behind a last moment.
fn places_until(f: Frequency, m: Moment, last: Moment) -> u32
    ensures { is_moment last ≡ true → result ≡ places_up_to (unit_of f) (seconds_in f m) (second_number last) }
{
    let u = seconds_of(last);
    let minutes = (m.minute as u64) * 60 + (m.second as u64);
    if is_hourly(f) {
        return places_up_to(3600, minutes, u);
    }
    places_up_to(86400, (m.hour as u64) * 3600 + minutes, u)
}

// How many places there are up to the rule's end.
fn limit_of(f: Frequency, m: Moment, end: End) -> u32
    ensures { real_end end → result ≡ limit_of f m end }
{
    let all = places_of(f);
    match end {
        End::Until(last) => all.min(places_until(f, m, last)),
        End::Count(_) | End::Open => all,
    }
}

// A rule with its start.
pub fn series_of(start: Moment, rule: Rule) -> Series
    ensures { is_moment start ≡ true → real_end rule.end → result ≡ series_of start rule }
{
    let f = rule.frequency;
    Series {
        rule,
        start,
        place: place_of(f, start),
        places: limit_of(f, start, rule.end),
    }
}

// The first place from one on that is one of every so many from the start's on.
fn every_from(stepped: Stepped, start: u32, from: u32) -> u64
    requires { start ≤ from }
    ensures { (l : ℕ) → First (every_meets stepped.rule start) l from result }
{
    let interval = stepped.rule.interval;
    let out = (from - start) % interval;
    if out == 0 {
        return from as u64;
    }
    from as u64 + (interval - out) as u64
}

// The first place from one on that meets the rule, or a place behind the places there are; None where none meets it.
fn search(series: Series, from: u32) -> Option<u64>
    ensures { Founded series → series.place ≤ from → NextOf (meets_at series) series.places from result }
{
    let rule = series.rule;
    let place = series.place;
    let places = series.places;
    if places <= from || from < place || rule.interval < 1 {
        return None;
    }
    let stepped = Stepped { rule };
    match rule.frequency {
        Frequency::Hourly | Frequency::Daily => Some(every_from(stepped, place, from)),
        Frequency::Weekly => weekly_from(stepped, place, from, places),
        Frequency::Monthly => monthly_from(stepped, series.start.date, from, places),
        Frequency::Secondly | Frequency::Minutely | Frequency::Yearly => None,
    }
}

// The first place from one on that meets the rule, if one does.
pub fn first_from(series: Series, from: u32) -> Option<u32>
    ensures { Founded series → series.place ≤ from → FirstOf (meets_at series) series.places from result }
{
    let found = search(series, from)?;
    if found < series.places as u64 {
        Some(found as u32)
    } else {
        None
    }
}

// The start's moment on another day and at another hour.
fn moment_on(start: Moment, day: u32, hour: u32) -> Moment
    ensures { day < day_count → result ≡ moment_on start day hour }
{
    let Some(date) = Date::from_day_number(day) else {
        return start;
    };
    Moment {
        date,
        hour,
        ..start
    }
}

// The moment at a place.
pub fn moment_at(series: Series, place: u32) -> Moment
    ensures { place < places_of series.rule.frequency → result ≡ moment_at series.rule.frequency series.start place }
{
    let start = series.start;
    if is_hourly(series.rule.frequency) {
        return moment_on(start, place / 24, place % 24);
    }
    moment_on(start, place, start.hour)
}
