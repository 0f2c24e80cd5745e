// Decimal numbers: read from digits, and written.
ghost use Rattle.std.specs.Prelude.{◌≡◌, not, ◌+◌, ◌-◌, ◌*◌, ◌≤◌, min, eqb, length, drop};
ghost use Rattle.octets.specs.Basics.{◌and◌};
ghost use Rattle.octets.specs.Decimal.{value_of, is_sign, minus, unsigned, trim, decimal, integer_text};
ghost use Rattle.octets.specs.Pen.{pen, Wrote};

use crate::names::{is_digit, peek};
use crate::writing::{put, put_all};

// The number that digits say, but one more than `most` for any number above it.
pub fn value_of(s: &[u8], most: u32) -> u64
    ensures { result ≡ min (value_of s.now) (most + 1) }
{
    let limit = most as u64 + 1;
    let mut value = 0;
    for &c in s {
        value = next_value(value, c, limit);
    }
    value
}

// The number with one digit more behind it, but no more than the limit.
fn next_value(value: u64, c: u8, limit: u64) -> u64
    requires { (value ≤ limit) × (limit ≤ 4294967296) }
    ensures { result ≡ min (value * 10 + (c - 48)) limit }
{
    (value * 10 + c.saturating_sub(b'0') as u64).min(limit)
}

// How many zeros stand in front that a digit follows.
pub fn leading_zeros(s: &[u8]) -> usize
    ensures { (result ≤ length s.now) × (trim s.now ≡ drop result s.now) }
{
    for (i, &c) in s.iter().enumerate() {
        if c != b'0' || !is_digit(peek(s, i + 1)) {
            return i;
        }
    }
    s.len()
}

// Writes n in decimal: the number without its last digit, if there is more than one, and then that digit.
pub fn put_decimal(out: &mut [u8], at: usize, n: u64) -> usize
    ensures { Wrote (pen out.old at) (decimal n) (pen out.new result) }
{
    if n < 10 {
        return put(out, at, b'0' + n as u8);
    }
    let to = put_decimal(out, at, n / 10);
    put(out, to, b'0' + (n % 10) as u8)
}

// A plus or a minus.
pub fn is_sign(c: u8) -> bool
    ensures { result ≡ is_sign c }
{
    c == b'+' || c == b'-'
}

// How many octets the sign has: one or none.
pub fn sign_length(s: &[u8]) -> usize
    ensures { (result ≤ length s.now) × (unsigned s.now ≡ drop result s.now) }
{
    if is_sign(peek(s, 0)) { 1 } else { 0 }
}

// Below 0.
pub fn is_negative(s: &[u8]) -> bool
    ensures { result ≡ (minus s.now and not (eqb (value_of (unsigned s.now)) 0)) }
{
    peek(s, 0) == b'-' && value_of(&s[sign_length(s)..], 0) != 0
}

// Writes digits without leading zeros.
fn put_trimmed(out: &mut [u8], at: usize, s: &[u8]) -> usize
    ensures { Wrote (pen out.old at) (trim s.now) (pen out.new result) }
{
    let zeros = leading_zeros(s);
    put_all(out, at, &s[zeros..])
}

// Writes an integer as it is kept: no plus, no leading zeros, and 0 for -0.
pub fn put_integer_text(out: &mut [u8], at: usize, s: &[u8]) -> usize
    ensures { Wrote (pen out.old at) (integer_text s.now) (pen out.new result) }
{
    let sign = sign_length(s);
    if is_negative(s) {
        let to = put(out, at, b'-');
        return put_trimmed(out, to, &s[sign..]);
    }
    put_trimmed(out, at, &s[sign..])
}
