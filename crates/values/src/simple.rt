// Binary, boolean, float and integer values, GEO, and periods.
ghost use Rattle.std.specs.Prelude.{◌≡◌, ℕ, ◌+◌, ◌≤◌, leb, length, take, drop};
ghost use Rattle.octets.specs.Basics.{all};
ghost use Rattle.octets.specs.Classes.{upper};
ghost use Rattle.octets.specs.Optional.{is_some};
ghost use Rattle.octets.specs.Pieces.{split};
ghost use Rattle.octets.specs.Decimal.{minus};
ghost use Rattle.octets.specs.Pen.{pen, Wrote};
ghost use Rattle.values.specs.Simple.{base64_octet, unpadded, binary_is, boolean_of, float_of, in_range, integer_of};
ghost use Rattle.values.specs.Read.{read_geo, read_period};
ghost use Rattle.values.specs.Shown.{is_pair, boolean_shown, float_shown, geo_shown};

use calendar::durations::is_period_end;
use calendar::parts::find;
use calendar::texts::{Form, is_basic};
use octets::{
    MOST_INTEGER, all_digits, each_is, is_digit, is_lower, is_upper, leading_zeros, peek, put,
    put_all, same_name, sign_length, value_of,
};

// An octet of the alphabet of base64.
#[tactic(auto, unfolding(crate::specs::Simple::base64_octet, octets::specs::Classes::is_letter))]
fn is_base64(c: u8) -> bool
    ensures { result ≡ base64_octet c }
{
    is_upper(c) || is_lower(c) || is_digit(c) || c == b'+' || c == b'/'
}

// Each octet is of the alphabet; by `each_is`, since a test that ends at the first that is not takes ten times as long.
fn all_base64(s: &[u8]) -> bool
    ensures { result ≡ all base64_octet s.now }
{
    each_is(s, |c| is_base64(c))
}

// The octets before a padding at the end, or all of them.
fn unpadded(s: &[u8]) -> &[u8]
    ensures { result.now ≡ unpadded s.now }
{
    s.strip_suffix(b"=").unwrap_or(s)
}

// The octets before the paddings at the end, of which there are at most two.
pub(crate) fn before_padding(s: &[u8]) -> &[u8]
    ensures { result.now ≡ unpadded (unpadded s.now) }
{
    unpadded(unpadded(s))
}

// Base64 in whole groups of four, with at most two paddings at the end.
pub fn is_binary(s: &[u8]) -> bool
    ensures { result ≡ binary_is s.now }
{
    s.len() % 4 == 0 && all_base64(before_padding(s))
}

pub fn is_boolean(s: &[u8]) -> bool
    ensures { result ≡ is_some (boolean_of (upper s.now)) }
{
    same_name(s, b"TRUE") || same_name(s, b"FALSE")
}

pub fn put_boolean(out: &mut [u8], at: usize, s: &[u8]) -> usize
    ensures { Wrote (pen out.old at) (boolean_shown s.now) (pen out.new result) }
{
    if same_name(s, b"TRUE") {
        return put_all(out, at, b"true");
    }
    put_all(out, at, b"false")
}

// Where what lies behind a separator at e begins.
pub fn past(s: &[u8], e: usize) -> usize
    ensures { (result ≤ length s.now) × (drop result s.now ≡ drop (e + 1) s.now) }
{
    if e < s.len() { e + 1 } else { s.len() }
}

// A sign, digits, and optionally a point with digits.
pub fn is_float(s: &[u8]) -> bool
    ensures { result ≡ is_some (float_of s.now) }
{
    let sign = sign_length(s);
    let rest = &s[sign..];
    let e = find(rest, b'.');
    if !all_digits(&rest[0..e]) {
        return false;
    }
    if e >= rest.len() {
        return true;
    }
    let from = e + 1;
    all_digits(&rest[from..])
}

// Writes a float without plus and leading zeros.
pub fn put_float(out: &mut [u8], at: usize, s: &[u8]) -> usize
    ensures { Wrote (pen out.old at) (float_shown s.now) (pen out.new result) }
{
    let sign = sign_length(&*s);
    let rest = &s[sign..];
    let zeros = leading_zeros(rest);
    if peek(&*s, 0) == b'-' {
        let to = put(out, at, b'-');
        return put_all(out, to, &rest[zeros..]);
    }
    put_all(out, at, &rest[zeros..])
}

// The least integer's digits say one more than the largest integer.
fn most_of(s: &[u8]) -> u32
    ensures { ((n : ℕ) → in_range (minus s.now) n ≡ leb n result) × (result ≤ 2147483648) }
{
    let most = MOST_INTEGER;
    if peek(s, 0) == b'-' { most + 1 } else { most }
}

// A sign and digits, with a value from -2147483648 to 2147483647.
pub fn is_integer(s: &[u8]) -> bool
    ensures { result ≡ is_some (integer_of s.now) }
{
    let sign = sign_length(s);
    let figures = &s[sign..];
    if !all_digits(figures) {
        return false;
    }
    let most = most_of(s);
    value_of(figures, most) <= (most as u64)
}

// One separator stands in it, and no other.
fn is_pair(s: &[u8], sep: u8) -> bool
    ensures { result ≡ is_pair (split sep s.now) }
{
    let e = find(s, sep);
    if e >= s.len() {
        return false;
    }
    let from = e + 1;
    let rest = &s[from..];
    find(rest, sep) >= rest.len()
}

// Two floats.
pub fn is_geo(s: &[u8]) -> bool
    ensures { result ≡ is_some (read_geo s.now) }
{
    if !is_pair(s, b';') {
        return false;
    }
    let e = find(s, b';');
    if !is_float(&s[0..e]) {
        return false;
    }
    let from = past(s, e);
    is_float(&s[from..])
}

// Writes an array of two floats.
pub fn put_geo(out: &mut [u8], at: usize, s: &[u8]) -> usize
    ensures { Wrote (pen out.old at) (geo_shown s.now) (pen out.new result) }
{
    let e = find(s, b';');
    let from = past(s, e);
    let first = put(out, at, b'[');
    let comma = put_float(out, first, &s[0..e]);
    let second = put(out, comma, b',');
    let close = put_float(out, second, &s[from..]);
    put(out, close, b']')
}

// A start, and an end or a duration without minus.
pub fn is_period(s: &[u8]) -> bool
    ensures { result ≡ is_some (read_period s.now) }
{
    if !is_pair(s, b'/') {
        return false;
    }
    let e = find(s, b'/');
    if !is_basic(Form::DateTime, &s[0..e]) {
        return false;
    }
    let from = past(s, e);
    is_period_end(&s[from..])
}
