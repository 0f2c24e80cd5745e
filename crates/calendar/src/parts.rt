// The parts of a recurrence rule by places in its text, and of what sort the values of each are.
ghost use Rattle.std.specs.Prelude.{◌≡◌, ◌<◌, length};
ghost use Rattle.octets.specs.Basics.{pick, among};
ghost use Rattle.octets.specs.Optional.{said, when};
ghost use Rattle.octets.specs.Classes.{upper, same_name};
ghost use Rattle.calendar.specs.Recurrence.{numbers, frequencies};
ghost use Rattle.calendar.specs.Rules.{frequency_of};
ghost use Rattle.calendar.specs.Walk.{before_first, key_names, word_place_from, key_place, key_at, key_number, key_said, part_said, part_sort_said, first_part};

use crate::rules::Frequency;
use octets::same_name;

// The keys of parts, in the order of the definition `keys`.
#[derive(Clone, Copy)]
pub enum Key {
    Freq,
    Until,
    Count,
    Interval,
    BySecond,
    ByMinute,
    ByHour,
    ByDay,
    ByMonthDay,
    ByYearDay,
    ByWeekNo,
    ByMonth,
    BySetPos,
    Wkst,
}

impl Key {
    // How many keys there are.
    pub(crate) const COUNT: usize = 14;

    // The place of a key among the keys.
    #[tactic(auto, unfolding(crate::specs::Walk::key_number))]
    pub(crate) fn place(self) -> usize
        ensures { (result ≡ key_number self) × (result < 14) }
    {
        self as usize
    }
}

// A part: its key, if it has one, the length of its name, where its values begin, and where it ends.
#[derive(Clone, Copy)]
pub struct PartAt {
    pub key: Option<Key>,
    pub name: usize,
    pub from: usize,
    pub to: usize,
}

// Numbers: whether they may have a sign, their most digits, and their bounds without the sign.
#[derive(Clone, Copy)]
pub struct Bounds {
    pub signed: bool,
    pub most: usize,
    pub lo: u32,
    pub hi: u32,
}

// What the values of a part are.
#[derive(Clone, Copy)]
pub enum PartSort {
    Frequency,
    Moment,
    Count,
    Weekday,
    Ordinal,
    Numbers(Bounds),
}

// The place of the first octet `sep`, or the length.
pub fn find(s: &[u8], sep: u8) -> usize
    ensures { result ≡ length (before_first sep s.now) }
{
    octets::find(s, 0, sep)
}

// What is named where a test is passed, or else another.
pub(crate) fn chosen<T: Copy>(passed: bool, named: T, other: Option<T>) -> Option<T>
    ensures { result ≡ pick passed (Some named) other }
{
    if passed { Some(named) } else { other }
}

// The key that a name is, without case.
pub fn key_named(name: &[u8]) -> Option<Key>
    ensures { key_said result ≡ key_place (upper name.now) }
{
    match name.len() {
        4 => {
            let wkst = chosen(same_name(b"WKST", name), Key::Wkst, None);
            chosen(same_name(b"FREQ", name), Key::Freq, wkst)
        }
        5 => {
            let by_day = chosen(same_name(b"BYDAY", name), Key::ByDay, None);
            let count = chosen(same_name(b"COUNT", name), Key::Count, by_day);
            chosen(same_name(b"UNTIL", name), Key::Until, count)
        }
        6 => chosen(same_name(b"BYHOUR", name), Key::ByHour, None),
        7 => chosen(same_name(b"BYMONTH", name), Key::ByMonth, None),
        8 => long_key_named(name),
        9 => chosen(same_name(b"BYYEARDAY", name), Key::ByYearDay, None),
        10 => chosen(same_name(b"BYMONTHDAY", name), Key::ByMonthDay, None),
        _ => None,
    }
}

// The key that a name of eight octets is.
fn long_key_named(name: &[u8]) -> Option<Key>
    ensures { key_said result ≡ word_place_from 0 8 key_names (upper name.now) }
{
    let by_set = chosen(same_name(b"BYSETPOS", name), Key::BySetPos, None);
    let by_week = chosen(same_name(b"BYWEEKNO", name), Key::ByWeekNo, by_set);
    let by_minute = chosen(same_name(b"BYMINUTE", name), Key::ByMinute, by_week);
    let by_second = chosen(same_name(b"BYSECOND", name), Key::BySecond, by_minute);
    chosen(same_name(b"INTERVAL", name), Key::Interval, by_second)
}

// The frequency that a name is, without case.
pub fn frequency_named(name: &[u8]) -> Option<Frequency>
    ensures { said result ≡ when (among (upper name.now) frequencies) (frequency_of (upper name.now)) }
{
    match name.len() {
        5 => chosen(same_name(b"DAILY", name), Frequency::Daily, None),
        6 => {
            let yearly = chosen(same_name(b"YEARLY", name), Frequency::Yearly, None);
            let weekly = chosen(same_name(b"WEEKLY", name), Frequency::Weekly, yearly);
            chosen(same_name(b"HOURLY", name), Frequency::Hourly, weekly)
        }
        7 => chosen(same_name(b"MONTHLY", name), Frequency::Monthly, None),
        8 => {
            let minutely = chosen(same_name(b"MINUTELY", name), Frequency::Minutely, None);
            chosen(same_name(b"SECONDLY", name), Frequency::Secondly, minutely)
        }
        _ => None,
    }
}

// The part that a text begins with.
pub fn first_part(s: &[u8]) -> PartAt
    ensures { part_said result ≡ first_part s.now }
{
    let to = find(s, b';');
    let name = find(&s[0..to], b'=');
    if name < to {
        PartAt {
            key: key_named(&s[0..name]),
            name,
            from: name + 1,
            to,
        }
    } else {
        PartAt {
            key: None,
            name,
            from: name,
            to,
        }
    }
}

fn numbers(signed: bool, most: usize, lo: u32, hi: u32) -> PartSort
    ensures { part_sort_said result ≡ numbers signed most lo hi }
{
    PartSort::Numbers(Bounds {
        signed,
        most,
        lo,
        hi,
    })
}

// What the values of the part with a key are; those of a part with no key are words, as those of FREQ.
#[tactic(auto, unfolding(crate::specs::Walk::part_sort_said, crate::specs::Walk::key_at, crate::specs::Recurrence::keys))]
pub fn sort_of(key: Option<Key>) -> PartSort
    ensures { part_sort_said result ≡ (key_at (key_said key)).sort }
{
    match key {
        None => PartSort::Frequency,
        Some(key) => match key {
            Key::Freq => PartSort::Frequency,
            Key::Until => PartSort::Moment,
            Key::Count | Key::Interval => PartSort::Count,
            Key::BySecond => numbers(false, 2, 0, 60),
            Key::ByMinute => numbers(false, 2, 0, 59),
            Key::ByHour => numbers(false, 2, 0, 23),
            Key::ByDay => PartSort::Ordinal,
            Key::ByMonthDay => numbers(true, 2, 1, 31),
            Key::ByYearDay | Key::BySetPos => numbers(true, 3, 1, 366),
            Key::ByWeekNo => numbers(true, 2, 1, 53),
            Key::ByMonth => numbers(false, 2, 1, 12),
            Key::Wkst => PartSort::Weekday,
        },
    }
}
