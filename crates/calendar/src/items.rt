// The values of a recurrence rule's parts: which stand, and how they are written.
ghost use Rattle.std.specs.Prelude.{◌≡◌, not, ◌-◌, [], ◌∷◌, eqb, length};
ghost use Rattle.octets.specs.Basics.{◌and◌, ◌or◌, among};
ghost use Rattle.octets.specs.Optional.{is_some};
ghost use Rattle.octets.specs.Classes.{between, upper};
ghost use Rattle.octets.specs.Decimal.{digits, value_of, has_sign};
ghost use Rattle.octets.specs.Pen.{pen, Wrote};
ghost use Rattle.calendar.specs.Recurrence.{ordinal, frequencies, weekdays, word_of, until_of, count_of, number_of, day_of, item_of, several};
ghost use Rattle.calendar.specs.Walk.{part_sort_said, item_shown};
ghost use Rattle.calendar.specs.Reading.{values_stand};

use crate::moments::read_moment;
use crate::parts::{Bounds, PartSort, frequency_named};
use crate::rules::weekday_named;
use octets::{
    MOST_INTEGER, all_digits, is_sign, peek, put_integer_text, put_upper, sign_length, upper_octet,
    value_of,
};

// A sign may stand in front, or none does.
#[tactic(auto, unfolding(octets::specs::Decimal::has_sign))]
fn sign_stands(s: &[u8], signed: bool) -> bool
    ensures { result ≡ (signed or not (has_sign s.now)) }
{
    signed || !is_sign(peek(s, 0))
}

// Digits, and their number within bounds.
fn is_within(s: &[u8], lo: u32, hi: u32) -> bool
    ensures { result ≡ (digits s.now and between lo hi (value_of s.now)) }
{
    if !all_digits(s) {
        return false;
    }
    let n = value_of(s, hi);
    if n < (lo as u64) {
        false
    } else {
        n <= (hi as u64)
    }
}

// From 1 to the largest integer.
fn is_count(s: &[u8]) -> bool
    ensures { result ≡ is_some (count_of (upper s.now)) }
{
    is_within(s, 1, MOST_INTEGER)
}

// A number within bounds, with a sign where it may have one.
fn is_number(s: &[u8], b: Bounds) -> bool
    ensures { result ≡ is_some (number_of b.signed b.most b.lo b.hi (upper s.now)) }
{
    if !sign_stands(s, b.signed) {
        return false;
    }
    let from = sign_length(s);
    let figures = &s[from..];
    if figures.len() > b.most {
        return false;
    }
    is_within(figures, b.lo, b.hi)
}

// Where a weekday's two letters begin.
pub(crate) fn day_from(s: &[u8]) -> usize
    ensures { result ≡ length s.now - 2 }
{
    s.len().saturating_sub(2)
}

// A frequency, letters in either case.
fn is_frequency(s: &[u8]) -> bool
    ensures { result ≡ is_some (word_of frequencies (upper s.now)) }
{
    frequency_named(s).is_some()
}

// A weekday, letters in either case.
fn is_weekday(s: &[u8]) -> bool
    ensures { result ≡ is_some (word_of weekdays (upper s.now)) }
{
    weekday_named(s).is_some()
}

// A weekday, and a number in front of it or none.
fn is_ordinal(s: &[u8]) -> bool
    ensures { result ≡ is_some (day_of (upper s.now)) }
{
    let at = day_from(s);
    if !is_weekday(&s[at..]) {
        return false;
    }
    if at == 0 {
        return true;
    }
    is_number(
        &s[0..at],
        Bounds {
            signed: true,
            most: 2,
            lo: 1,
            hi: 53,
        },
    )
}

// A date or a date-time.
fn is_until(s: &[u8]) -> bool
    ensures { result ≡ is_some (until_of (upper s.now)) }
{
    read_moment(s).is_some()
}

// One value of a part.
fn item_stands(sort: PartSort, s: &[u8]) -> bool
    ensures { result ≡ is_some (item_of (part_sort_said sort) (upper s.now)) }
{
    match sort {
        PartSort::Frequency => is_frequency(s),
        PartSort::Moment => is_until(s),
        PartSort::Count => is_count(s),
        PartSort::Weekday => is_weekday(s),
        PartSort::Ordinal => is_ordinal(s),
        PartSort::Numbers(b) => is_number(s, b),
    }
}

// Only BY parts have several values.
#[tactic(auto, unfolding(crate::specs::Walk::part_sort_said, crate::specs::Recurrence::several))]
pub fn has_several(sort: PartSort) -> bool
    ensures { result ≡ several (part_sort_said sort) }
{
    matches!(sort, PartSort::Ordinal | PartSort::Numbers(_))
}

// The values of a part, between commas.
pub fn values_stand(sort: PartSort, v: &[u8]) -> bool
    ensures { result ≡ values_stand (part_sort_said sort) v.now }
{
    let alone = !v.contains(&b',');
    (has_several(sort) || alone)
        && v.split(|&c| c == b',')
            .all(|value| item_stands(sort, value))
}

// Writes a weekday with its number.
fn put_ordinal(out: &mut [u8], at: usize, s: &[u8]) -> usize
    ensures { Wrote (pen out.old at) (item_shown ordinal s.now) (pen out.new result) }
{
    let from = day_from(s);
    let behind = put_integer_text(out, at, &s[0..from]);
    put_upper(out, behind, &s[from..])
}

// Writes one value of a part: in uppercase, a number without plus and leading zeros.
pub fn put_item(out: &mut [u8], at: usize, sort: PartSort, s: &[u8]) -> usize
    ensures { Wrote (pen out.old at) (item_shown (part_sort_said sort) s.now) (pen out.new result) }
{
    match sort {
        PartSort::Frequency => put_upper(out, at, s),
        PartSort::Moment => put_upper(out, at, s),
        PartSort::Count => put_integer_text(out, at, s),
        PartSort::Weekday => put_upper(out, at, s),
        PartSort::Ordinal => put_ordinal(out, at, s),
        PartSort::Numbers(_) => put_integer_text(out, at, s),
    }
}
