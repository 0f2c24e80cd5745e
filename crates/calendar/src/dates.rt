// Dates of the Gregorian calendar, and their day numbers by formula.
ghost use Rattle.std.specs.Prelude.{◌≡◌, ◌≤◌, ◌-◌, ltb};
ghost use Rattle.octets.specs.Optional.{said, when};
ghost use Rattle.calendar.specs.Gregorian.{leap_day, month_days, is_day, date_on, day_number, day_count, date_at};
ghost use Rattle.calendar.specs.Answers.{month_count, month_at};

use octets::LAST_YEAR;

#[derive(Clone, Copy)]
pub struct Date {
    pub year: u32,
    pub month: u32,
    pub day: u32,
}

// The years that can be named; they are whole cycles of 400.
const YEARS: u32 = Date::LAST.year + 1;

// The days that can be named.
pub const DAY_COUNT: u32 = 365 * YEARS + YEARS / 4 - YEARS / 100 + YEARS / 400;

// A month: the number of its first day, and how many days it has.
#[derive(Clone, Copy)]
pub struct Month {
    pub first: u32,
    pub days: u32,
}

impl Date {
    pub const FIRST: Date = Date {
        year: 0,
        month: 1,
        day: 1,
    };

    pub const LAST: Date = Date {
        year: LAST_YEAR as u32,
        month: 12,
        day: 31,
    };

    // The first day that can be named: 0000-01-01, whose number is 0.
    pub fn first() -> Date
        ensures { (result ≡ date_on 0 1 1) × (result ≡ date_at 0) }
    {
        Date::FIRST
    }

    // The last day that can be named: 9999-12-31, whose number is one less than there are days.
    pub fn last() -> Date
        ensures { (result ≡ date_on 9999 12 31) × (result ≡ date_at (day_count - 1)) }
    {
        Date::LAST
    }

    // The days from the first day to this one, if there is such a day. The year is counted from March, so that the leap day is its last.
    pub fn day_number(self) -> Option<u32>
        ensures { said result ≡ when (is_day self.year self.month self.day) (day_number self) }
    {
        if !is_day(self.year, self.month, self.day) {
            return None;
        }
        let s = self.year + 400 - (14 - self.month) / 12;
        let k = (self.month + 9) % 12;
        Some(365 * s + s / 4 + s / 400 - s / 100 + (153 * k + 2) / 5 + self.day - 146038)
    }

    // The date so many days behind the first day, if that is not past the last day.
    pub fn from_day_number(n: u32) -> Option<Date>
        ensures { said result ≡ when (ltb n day_count) (date_at n) }
    {
        if DAY_COUNT <= n {
            return None;
        }
        let z = n + 146037;
        let c = (4 * z + 3) / 146097;
        let r = z - 146097 * c / 4;
        let e = (4 * r + 3) / 1461;
        let t = r - 1461 * e / 4;
        let k = (5 * t + 2) / 153;
        Some(Date {
            year: 100 * c + e + k / 10 - 400,
            month: (k + 2) % 12 + 1,
            day: t - (153 * k + 2) / 5 + 1,
        })
    }
}

impl Month {
    // The month so many months behind 0000-01, if that is not past the last month.
    pub fn at(n: u64) -> Option<Month>
        ensures { said result ≡ when (ltb n month_count) (month_at n) }
    {
        if (YEARS as u64) * 12 <= n {
            return None;
        }
        let year = (n / 12) as u32;
        let month = (n % 12) as u32 + 1;
        let date = Date {
            year,
            month,
            day: 1,
        };
        let Some(first) = date.day_number() else {
            return None;
        };
        Some(Month {
            first,
            days: month_days(year, month),
        })
    }
}

// 1 in a leap year, else 0.
fn leap_day(y: u32) -> u32
    ensures { result ≡ leap_day y }
{
    if y % 4 != 0 {
        return 0;
    }
    if y % 100 != 0 {
        return 1;
    }
    if y % 400 == 0 {
        return 1;
    }
    0
}

// The length of a month: 31 and 30 days in turn, up to July and again from August; February, the last month from March on, lacks two of 30, or one.
fn month_days(y: u32, m: u32) -> u32
    requires { (1 ≤ m) × (m ≤ 12) }
    ensures { result ≡ month_days y m }
{
    let k = (m + 9) % 12;
    30 + (m + m / 8) % 2 - k / 11 * (2 - leap_day(y))
}

// There is such a day.
pub fn is_day(y: u32, m: u32, d: u32) -> bool
    ensures { result ≡ is_day y m d }
{
    let last = Date::LAST;
    if last.year < y {
        return false;
    }
    if m < 1 {
        return false;
    }
    if 12 < m {
        return false;
    }
    if d < 1 {
        return false;
    }
    // Every month has 28 days, so most dates do not ask for their month's length.
    if d <= 28 {
        return true;
    }
    d <= month_days(y, m)
}
