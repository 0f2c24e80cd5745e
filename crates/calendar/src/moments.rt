// Moments: a date, a local date-time or one in UTC.
ghost use Rattle.std.specs.Prelude.{◌≡◌, length};
ghost use Rattle.calendar.specs.Moments.{kind_of, moment_from, read_moment};
ghost use Rattle.calendar.specs.Texts.{kind_at};
ghost use Rattle.octets.specs.Optional.{said};
ghost use Rattle.calendar.specs.Answers.{moved_on};

use crate::dates::{DAY_COUNT, Date};
use crate::texts::{extended_moment, is_clock, pair, year};

const HOUR_COUNT: u64 = (DAY_COUNT as u64) * 24;

#[derive(Clone, Copy, PartialEq)]
pub enum Kind {
    Day,
    Local,
    Utc,
}

#[derive(Clone, Copy)]
pub struct Moment {
    pub date: Date,
    pub hour: u32,
    pub minute: u32,
    pub second: u32,
    pub kind: Kind,
}

// Why a moment is not moved: it would lie past the last day, or there is no such moment.
#[derive(Clone, Copy)]
pub enum NotMoved {
    Past,
    NoMoment,
}

impl Moment {
    // The moment so many hours later. One that cannot be named is not moved.
    pub fn moved(self, hours: u64) -> Result<Moment, NotMoved>
        ensures { result ≡ moved_on self hours }
    {
        if !is_clock(self.hour, self.minute, self.second) {
            return Err(NotMoved::NoMoment);
        }
        let Some(n) = self.date.day_number() else {
            return Err(NotMoved::NoMoment);
        };
        let here = (n as u64) * 24 + (self.hour as u64);
        if HOUR_COUNT - here <= hours {
            return Err(NotMoved::Past);
        }
        let there = here + hours;
        let Some(date) = Date::from_day_number((there / 24) as u32) else {
            return Err(NotMoved::Past);
        };
        Ok(Moment {
            date,
            hour: (there % 24) as u32,
            ..self
        })
    }
}

// The kind of a moment, by the length of its text in the extended form.
fn kind_of(t: &[u8]) -> Kind
    ensures { result ≡ kind_at (length t.now) }
{
    if t.len() <= 10 {
        return Kind::Day;
    }
    if t.len() <= 19 {
        return Kind::Local;
    }
    Kind::Utc
}

// The moment that a text in the extended form names.
fn moment_from(t: &[u8]) -> Moment
    requires { kind_of t.now ≡ kind_at (length t.now) }
    ensures { result ≡ moment_from t.now }
{
    let date = Date {
        year: year(t),
        month: pair(t, 5),
        day: pair(t, 8),
    };
    Moment {
        date,
        hour: pair(t, 11),
        minute: pair(t, 14),
        second: pair(t, 17),
        kind: kind_of(t),
    }
}

// The moment of a date or a date-time in the basic form, if the text is one.
pub fn read_moment(s: &[u8]) -> Option<Moment>
    ensures { said result ≡ read_moment s.now }
{
    let t = extended_moment(s)?;
    Some(moment_from(t.as_slice()))
}
