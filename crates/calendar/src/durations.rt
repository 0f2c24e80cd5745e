// Durations and the ends of periods.
ghost use Rattle.std.specs.Prelude.{◌≡◌};
ghost use Rattle.octets.specs.Optional.{is_some};
ghost use Rattle.octets.specs.Classes.{upper};
ghost use Rattle.calendar.specs.Durations.{is_unit, duration_is, forward_is, period_end_of};
ghost use Rattle.calendar.specs.Letters.{letter_follows, may_come, letter_with};

use crate::texts::{Form, is_basic};
use octets::{is_digit, peek, sign_length, upper_octet};

// A unit of time: weeks, days, hours, minutes or seconds.
#[tactic(auto, unfolding(crate::specs::Durations::is_unit))]
fn is_unit(c: u8) -> bool
    ensures { result ≡ is_unit c }
{
    matches!(c, b'W' | b'D' | b'H' | b'M' | b'S')
}

// The letter c may follow the letter b, for which 0 stands if there is none.
#[tactic(auto, unfolding(crate::specs::Letters::letter_follows))]
fn letter_follows(b: u8, c: u8) -> bool
    ensures { result ≡ letter_follows b c }
{
    match b {
        0 => c == b'P',
        b'P' => matches!(c, b'D' | b'T' | b'W'),
        b'D' => c == b'T',
        b'T' => matches!(c, b'H' | b'M' | b'S'),
        b'H' => c == b'M',
        b'M' => c == b'S',
        _ => false,
    }
}

// The octet c may stand behind the octet p, where b is the last letter before it.
#[tactic(auto, unfolding(crate::specs::Letters::may_come, crate::specs::Durations::unit_placed))]
fn may_come(b: u8, p: u8, c: u8) -> bool
    ensures { result ≡ may_come b p c }
{
    is_digit(c) || letter_follows(b, c) && is_unit(c) == is_digit(p)
}

// The last letter, with the octet c.
fn letter_with(b: u8, c: u8) -> u8
    ensures { result ≡ letter_with b c }
{
    if is_digit(c) { b } else { c }
}

// The text is a duration.
pub fn is_duration(s: &[u8]) -> bool
    ensures { result ≡ duration_is (upper s.now) }
{
    let mut letter = 0;
    let mut last = 0;
    let unsigned = &s[sign_length(s)..];
    for &octet in unsigned {
        let c = upper_octet(octet);
        if !may_come(letter, last, c) {
            return false;
        }
        letter = letter_with(letter, c);
        last = c;
    }
    !is_digit(last) && is_unit(letter)
}

// The text is a duration without minus.
pub fn is_forward(s: &[u8]) -> bool
    ensures { result ≡ forward_is (upper s.now) }
{
    peek(s, 0) != b'-' && is_duration(s)
}

// The text is a period's end in iCalendar.
pub fn is_period_end(s: &[u8]) -> bool
    ensures { result ≡ is_some (period_end_of (upper s.now)) }
{
    is_basic(Form::DateTime, s) || is_forward(s)
}
