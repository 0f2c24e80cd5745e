// Recurrence rules.
ghost use Rattle.std.specs.Prelude.{◌≡◌, ◌<◌, [], ◌∷◌, eqb};
ghost use Rattle.octets.specs.Basics.{pick, among};
ghost use Rattle.octets.specs.Optional.{map?, is_some, said, when};
ghost use Rattle.octets.specs.Classes.{upper};
ghost use Rattle.octets.specs.Pieces.{split};
ghost use Rattle.calendar.specs.Recurrence.{parts_of, weekdays};
ghost use Rattle.calendar.specs.Walk.{key_number};
ghost use Rattle.calendar.specs.Rules.{frequency_of, weekday_of, with_day, with_month_day, gathered, read_rule};
ghost use Rattle.calendar.specs.declared.rules.End.TheVariants.{Count};
ghost use Rattle.calendar.specs.Reading.{counted, last_of, with_part, kept, barred, may_follow, by_seen, rule_read};

use crate::by_days::{ByDays, no_days, with_day, with_month_day};
use crate::items::values_stand;
use crate::moments::{Moment, read_moment};
use crate::parts::{Key, chosen, first_part, frequency_named, sort_of};
use octets::{MOST_INTEGER, upper_octet, value_of};

#[derive(Clone, Copy)]
pub enum Frequency {
    Secondly,
    Minutely,
    Hourly,
    Daily,
    Weekly,
    Monthly,
    Yearly,
}

#[derive(Clone, Copy)]
pub enum Weekday {
    Monday,
    Tuesday,
    Wednesday,
    Thursday,
    Friday,
    Saturday,
    Sunday,
}

// A rule's end: a number of moments, a last moment, or none.
#[derive(Clone, Copy)]
pub enum End {
    Count(u32),
    Until(Moment),
    Open,
}

// Which BY parts there are.
#[derive(Clone, Copy)]
pub struct ByParts {
    pub second: bool,
    pub minute: bool,
    pub hour: bool,
    pub day: bool,
    pub monthday: bool,
    pub yearday: bool,
    pub weekno: bool,
    pub month: bool,
    pub setpos: bool,
}

#[derive(Clone, Copy)]
pub struct Rule {
    pub frequency: Frequency,
    pub interval: u32,
    pub end: End,
    pub wkst: Weekday,
    pub by: ByParts,
    pub days: ByDays,
}

// A rule while its parts are read, but for which BY parts there are.
#[derive(Clone, Copy)]
struct RuleHead {
    frequency: Frequency,
    interval: u32,
    end: End,
    wkst: Weekday,
    days: ByDays,
}

// The frequency that a name says; a name that is none is read as YEARLY.
fn frequency_of(s: &[u8]) -> Frequency
    ensures { result ≡ frequency_of (upper s.now) }
{
    frequency_named(s).unwrap_or(Frequency::Yearly)
}

// The weekday that two capital letters say.
fn weekday_lettered(a: u8, b: u8) -> Option<Weekday>
    ensures { said result ≡ when (among (a ∷ b ∷ []) weekdays) (weekday_of (a ∷ b ∷ [])) }
{
    match a {
        b'S' => {
            let saturday = chosen(b == b'A', Weekday::Saturday, None);
            chosen(b == b'U', Weekday::Sunday, saturday)
        }
        b'M' => chosen(b == b'O', Weekday::Monday, None),
        b'T' => {
            let thursday = chosen(b == b'H', Weekday::Thursday, None);
            chosen(b == b'U', Weekday::Tuesday, thursday)
        }
        b'W' => chosen(b == b'E', Weekday::Wednesday, None),
        b'F' => chosen(b == b'R', Weekday::Friday, None),
        _ => None,
    }
}

// The weekday that a name says, letters in either case.
pub(crate) fn weekday_named(s: &[u8]) -> Option<Weekday>
    ensures { said result ≡ when (among (upper s.now) weekdays) (weekday_of (upper s.now)) }
{
    if s.len() != 2 {
        return None;
    }
    weekday_lettered(upper_octet(s[0]), upper_octet(s[1]))
}

// The weekday that a name says; a name that is none is read as Saturday.
pub(crate) fn weekday_of(s: &[u8]) -> Weekday
    ensures { result ≡ weekday_of (upper s.now) }
{
    weekday_named(s).unwrap_or(Weekday::Saturday)
}

fn count_of(s: &[u8]) -> u32
    ensures { result ≡ counted s.now }
{
    value_of(s, MOST_INTEGER) as u32
}

fn until_of(s: &[u8]) -> End
    ensures { result ≡ last_of s.now }
{
    match read_moment(s) {
        Some(m) => End::Until(m),
        None => End::Open,
    }
}

// A rule's end once the part with a key and its value is read.
fn end_with(end: End, key: Key, v: &[u8]) -> End
    ensures { result ≡ pick (eqb (key_number key) 1) (last_of v.now) (pick (eqb (key_number key) 2) (Count (counted v.now)) end) }
{
    match key {
        Key::Until => until_of(v),
        Key::Count => End::Count(count_of(v)),
        _ => end,
    }
}

// The days that a rule's BY parts name once the part with a key and its values is read, where they are gathered.
fn days_with(days: ByDays, key: Key, v: &[u8], gather: bool) -> ByDays
    ensures { result ≡ pick gather (pick (eqb (key_number key) 7) (gathered with_day days (split 44 v.now)) (pick (eqb (key_number key) 8) (gathered with_month_day days (split 44 v.now)) days)) days }
{
    if !gather {
        return days;
    }
    match key {
        Key::ByDay => v
            .split(|&c| c == b',')
            .fold(days, |all, value| with_day(all, value)),
        Key::ByMonthDay => v
            .split(|&c| c == b',')
            .fold(days, |all, value| with_month_day(all, value)),
        _ => days,
    }
}

// One part more, with a key and its value; its days are gathered, or they are not.
fn with_value(head: RuleHead, key: Key, v: &[u8], gather: bool) -> RuleHead
    ensures { result ≡ with_part gather head (key_number key) v.now }
{
    match key {
        Key::Freq => RuleHead {
            frequency: frequency_of(v),
            ..head
        },
        Key::Interval => RuleHead {
            interval: count_of(v),
            ..head
        },
        Key::Wkst => RuleHead {
            wkst: weekday_of(v),
            ..head
        },
        _ => RuleHead {
            end: end_with(head.end, key, v),
            days: days_with(head.days, key, v, gather),
            ..head
        },
    }
}

// A part with a key may not follow the parts that were seen.
fn is_barred(seen: [bool; Key::COUNT], key: Key) -> bool
    ensures { result ≡ barred seen (key_number key) }
{
    if seen[key.place()] {
        return true;
    }
    match key {
        Key::Until => seen[Key::Count.place()],
        Key::Count => seen[Key::Until.place()],
        _ => false,
    }
}

// A part with a key and these values may follow the parts that were seen.
fn may_follow(seen: [bool; Key::COUNT], key: Key, v: &[u8]) -> bool
    ensures { result ≡ may_follow seen (key_number key) v.now }
{
    !is_barred(seen, key) && values_stand(sort_of(Some(key)), v)
}

#[tactic(auto, unfolding(crate::specs::Reading::by_seen))]
fn by_seen(seen: [bool; Key::COUNT]) -> ByParts
    ensures { result ≡ by_seen seen }
{
    ByParts {
        second: seen[Key::BySecond.place()],
        minute: seen[Key::ByMinute.place()],
        hour: seen[Key::ByHour.place()],
        day: seen[Key::ByDay.place()],
        monthday: seen[Key::ByMonthDay.place()],
        yearday: seen[Key::ByYearDay.place()],
        weekno: seen[Key::ByWeekNo.place()],
        month: seen[Key::ByMonth.place()],
        setpos: seen[Key::BySetPos.place()],
    }
}

// The rule of parts that are all read, if FREQ is one of them.
fn rule_of(head: RuleHead, seen: [bool; Key::COUNT]) -> Option<Rule>
    ensures { said result ≡ rule_read head seen }
{
    if !seen[Key::Freq.place()] {
        return None;
    }
    Some(Rule {
        frequency: head.frequency,
        interval: head.interval,
        end: head.end,
        wkst: head.wkst,
        by: by_seen(seen),
        days: head.days,
    })
}

// The rule that a text says, if it says one, with the days that its BY parts name or without them.
fn read_parts(s: &[u8], gather: bool) -> Option<Rule>
    ensures { said result ≡ map? (kept gather) (read_rule s.now) }
{
    let mut head = RuleHead {
        frequency: Frequency::Yearly,
        interval: 1,
        end: End::Open,
        wkst: Weekday::Monday,
        days: no_days(),
    };
    let mut seen = [false; Key::COUNT];
    for part in s.split(|&c| c == b';') {
        let at = first_part(part);
        let Some(key) = at.key else {
            return None;
        };
        let values = &part[at.from..at.to];
        if !may_follow(seen, key, values) {
            return None;
        }
        seen[key.place()] = true;
        head = with_value(head, key, values, gather);
    }
    rule_of(head, seen)
}

// The rule that a text says, if it says one.
pub fn read_rule(s: &[u8]) -> Option<Rule>
    ensures { said result ≡ read_rule s.now }
{
    read_parts(s, true)
}

// A text that says a rule.
pub fn is_rule(s: &[u8]) -> bool
    ensures { result ≡ is_some (parts_of (upper s.now)) }
{
    read_parts(s, false).is_some()
}
