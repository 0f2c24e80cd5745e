// Dates, times, date-times and UTC offsets as texts, in iCalendar's basic form and in jCal's extended form.
ghost use Rattle.std.specs.Prelude.{◌≡◌, true, false, ◌+◌, ◌*◌, ◌≤◌, List, ℕ, length, take, drop};
ghost use Rattle.octets.specs.Basics.{pick};
ghost use Rattle.octets.specs.Optional.{is_some, said};
ghost use Rattle.octets.specs.Classes.{upper};
ghost use Rattle.octets.specs.Decimal.{value_from};
ghost use Rattle.octets.specs.Pen.{pen, Wrote};
ghost use Rattle.calendar.specs.Forms.{takes, extended, basic, number_at};
ghost use Rattle.calendar.specs.Dates.{day_in, is_clock, clock_in, offset_in, moment_of, moment_is};
ghost use Rattle.calendar.specs.Texts.{form_of, form_is, form_text, is_added, place_at, slots, shaped, numbers_in, read_form};

use crate::dates::is_day;
use octets::{is_digit, is_sign, peek, put_all, upper_octet};
use std::marker::Model;

#[derive(Clone, Copy)]
pub enum Form {
    Date,
    Time,
    DateTime,
    Offset,
}

// A short text; a clause sees its octets. Zeros stand behind them, so that they give the array back.
#[derive(Clone, Copy)]
pub struct ShortText {
    octets: [u8; 20],
    len: usize,
}

impl Model for ShortText {
    ghost use Rattle.std.specs.Prelude.{◌≡◌, ◌-◌, ◌≤◌, ◌++◌, List, ℕ, length, take, drop, replicate};
    ghost use Rattle.std.proofs.Common.{sym, ap, ◌∙◌, subst, length-take-le, take-append-drop};

    ghost Value = { List ℕ };

    ghost view = { λ t. take t.len t.octets };

    ghost invariant = { λ t. (t.len ≤ 20) × (length t.octets ≡ 20) × (drop t.len t.octets ≡ replicate (20 - t.len) 0) };

    ghost inverse = { λ s. record { octets = s ++ replicate (20 - length s) 0; len = length s } };

    ghost inverse_ok = { λ t h i. record {
      octets = (ap (λ n. take t.len t.octets ++ replicate (20 - n) 0) (length-take-le t.len t.octets (subst (λ n. t.len ≤ n) (sym h.1) h.0))
          ∙ ap (λ zs. take t.len t.octets ++ zs) (sym h.2)
          ∙ take-append-drop t.len t.octets) i;
      len = length-take-le t.len t.octets (subst (λ n. t.len ≤ n) (sym h.1) h.0) i;
    } };
}

impl ShortText {
    pub fn as_slice(&self) -> &[u8]
        ensures { result.now ≡ self.now }
    {
        &self.octets[..self.len]
    }
}

// The place is one that only the extended form has.
#[tactic(auto, unfolding(crate::specs::Texts::is_added))]
fn is_added(whole: bool, c: u8) -> bool
    ensures { result ≡ is_added whole c }
{
    !whole && (c == b'-' || c == b':')
}

// The octet x may stand at the place c.
#[tactic(auto, unfolding(crate::specs::Texts::place_at, crate::specs::Forms::takes))]
fn takes(c: u8, x: u8) -> bool
    ensures { result ≡ takes (place_at c) x }
{
    match c {
        b'9' => is_digit(x),
        b'+' => is_sign(x),
        _ => x == c,
    }
}

// The extended text of a text that has the form.
fn read(form: &[u8], whole: bool, s: &[u8]) -> Option<ShortText>
    requires { (1 ≤ length form.now) × (length form.now ≤ 20) }
    ensures { said result ≡ extended (slots whole form.now) (upper s.now) }
{
    let mut octets = [0u8; 20];
    let mut i = 0;
    for (k, &f) in form.iter().enumerate() {
        if is_added(whole, f) {
            octets[k] = f;
            continue;
        }
        if s.len() <= i {
            return None;
        }
        let x = upper_octet(s[i]);
        if !takes(f, x) {
            return None;
        }
        octets[k] = x;
        i += 1;
    }
    if i < s.len() {
        return None;
    }
    Some(ShortText {
        octets,
        len: form.len(),
    })
}

// The basic text of a text in the extended form.
fn strip(form: &[u8], t: &[u8]) -> ShortText
    requires { length form.now ≤ 20 }
    ensures { result ≡ basic (slots false form.now) (upper t.now) }
{
    let mut octets = [0u8; 20];
    let mut len = 0;
    for (&f, &c) in form.iter().zip(t) {
        if !is_added(false, f) {
            octets[len] = upper_octet(c);
            len += 1;
        }
    }
    ShortText { octets, len }
}

// A number with the digit at a place behind it, if the text has one there.
fn digit_on(t: &[u8], at: usize, a: u32) -> u32
    requires { a ≤ 1000000 }
    ensures { (result ≡ value_from a (take 1 (drop at t.now))) × (result ≤ a * 10 + 207) }
{
    if t.len() <= at {
        return a;
    }
    let c = t[at];
    if c < b'0' {
        return a * 10;
    }
    a * 10 + ((c - b'0') as u32)
}

// The number in two digits from a place on.
pub fn pair(t: &[u8], at: usize) -> u32
    ensures { (result ≡ number_at at 2 t.now) × (result ≤ 2277) }
{
    if t.len() <= at {
        return 0;
    }
    digit_on(t, at + 1, digit_on(t, at, 0))
}

// The number in the first four digits.
pub fn year(t: &[u8]) -> u32
    ensures { result ≡ number_at 0 4 t.now }
{
    digit_on(t, 3, digit_on(t, 2, pair(t, 0)))
}

// yyyy-mm-dd at the front is a day.
#[tactic(auto, unfolding(crate::specs::Dates::day_in))]
fn day_in(t: &[u8]) -> bool
    ensures { result ≡ day_in t.now }
{
    is_day(year(t), pair(t, 5), pair(t, 8))
}

// There is such a time of day.
#[tactic(auto, unfolding(crate::specs::Dates::is_clock))]
pub fn is_clock(h: u32, m: u32, s: u32) -> bool
    ensures { result ≡ is_clock h m s }
{
    h <= 23 && m <= 59 && s <= 60
}

// hh:mm:ss at a place is a time.
fn clock_in(t: &[u8], at: usize) -> bool
    requires { at ≤ 11 }
    ensures { result ≡ clock_in at t.now }
{
    is_clock(pair(t, at), pair(t, at + 3), pair(t, at + 6))
}

// The numbers of a UTC offset: no minus stands before zeros.
#[tactic(auto, unfolding(crate::specs::Dates::offset_in, octets::specs::Decimal::minus))]
fn offset_in(t: &[u8]) -> bool
    ensures { result ≡ offset_in t.now }
{
    clock_in(t, 1) && (peek(t, 0) != b'-' || pair(t, 1) != 0 || pair(t, 4) != 0 || pair(t, 7) != 0)
}

// The numbers of a text in the extended form are real.
#[tactic(auto, unfolding(crate::specs::Texts::numbers_in, crate::specs::Dates::moment_in))]
fn numbers_in(form: Form, t: &[u8]) -> bool
    ensures { result ≡ numbers_in form t.now }
{
    match form {
        Form::Date => day_in(t),
        Form::Time => clock_in(t, 0),
        Form::DateTime => day_in(t) && clock_in(t, 11),
        Form::Offset => offset_in(t),
    }
}

// The length from which on a text has the longer form.
fn least(whole: bool, extended: usize, basic: usize) -> usize
    ensures { result ≡ pick whole extended basic }
{
    if whole { extended } else { basic }
}

// The extended text of one that has the form.
fn shape(form: Form, whole: bool, s: &[u8]) -> Option<ShortText>
    ensures { said result ≡ shaped whole form (upper s.now) }
{
    match form {
        Form::Date => read(b"9999-99-99", whole, s),
        Form::Time => {
            if least(whole, 9, 7) <= s.len() {
                return read(b"99:99:99Z", whole, s);
            }
            read(b"99:99:99", whole, s)
        }
        Form::DateTime => {
            if least(whole, 20, 16) <= s.len() {
                return read(b"9999-99-99T99:99:99Z", whole, s);
            }
            read(b"9999-99-99T99:99:99", whole, s)
        }
        Form::Offset => {
            if least(whole, 7, 6) <= s.len() {
                return read(b"+99:99:99", whole, s);
            }
            read(b"+99:99", whole, s)
        }
    }
}

// The extended text of one that has the form, and whose numbers are real.
fn take(form: Form, whole: bool, s: &[u8]) -> Option<ShortText>
    ensures { said result ≡ read_form whole form (upper s.now) }
{
    let t = shape(form, whole, s)?;
    if numbers_in(form, t.as_slice()) {
        return Some(t);
    }
    None
}

// The extended text of a text in the basic form.
pub fn extended(form: Form, s: &[u8]) -> Option<ShortText>
    ensures { said result ≡ form_of form (upper s.now) }
{
    take(form, false, s)
}

// The text is one in the basic form.
pub fn is_basic(form: Form, s: &[u8]) -> bool
    ensures { result ≡ is_some (form_of form (upper s.now)) }
{
    take(form, false, s).is_some()
}

// The text is one in the extended form.
pub fn is_extended(form: Form, t: &[u8]) -> bool
    ensures { result ≡ form_is form (upper t.now) }
{
    take(form, true, t).is_some()
}

// The basic text of one in the extended form, which may end before the form does.
pub fn basic(form: Form, t: &[u8]) -> ShortText
    ensures { result ≡ form_text form (upper t.now) }
{
    match form {
        Form::Date => strip(b"9999-99-99", t),
        Form::Time => strip(b"99:99:99Z", t),
        Form::DateTime => strip(b"9999-99-99T99:99:99Z", t),
        Form::Offset => strip(b"+99:99:99", t),
    }
}

// The extended text of a date or a date-time.
pub fn extended_moment(s: &[u8]) -> Option<ShortText>
    ensures { said result ≡ moment_of (upper s.now) }
{
    extended(Form::Date, s).or_else(|| extended(Form::DateTime, s))
}

// The text is a date or a date-time in the extended form.
#[tactic(auto, unfolding(crate::specs::Dates::moment_is))]
pub fn is_extended_moment(t: &[u8]) -> bool
    ensures { result ≡ moment_is (upper t.now) }
{
    is_extended(Form::Date, t) || is_extended(Form::DateTime, t)
}

// Writes a text.
pub fn put_text(out: &mut [u8], at: usize, t: ShortText) -> usize
    ensures { Wrote (pen out.old at) t (pen out.new result) }
{
    put_all(out, at, t.as_slice())
}
