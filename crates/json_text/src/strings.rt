// JSON strings (RFC 8259 7), decoded onto the tape.
ghost use Rattle.std.specs.Prelude.{◌≡◌, List, ℕ, ◌<◌};
ghost use Rattle.octets.specs.Pen.{pen, Wrote};
ghost use Rattle.json_text.specs.Strings.{escape_of, hex4 as hex4_of, utf8_of, low_surrogate, partner as partner_of, unicode as unicode_of, escape as escape_text, string as string_of};
ghost use Rattle.json_text.specs.Tape.{ser_string};
ghost use Rattle.json_text.specs.Promise.{Agrees, unless_zero, hex_code};

use crate::{END, JsonError, JsonRead, STRING};
use octets::{Class, hex_digit};

// The number of four hexadecimal digits.
fn hex4(text: &[u8]) -> Option<usize>
    ensures { result ≡ hex_code (hex4_of text.now) }
{
    let [k, l, m, n, ..] = text else {
        return None;
    };
    let a = hex_digit(*k)? as usize;
    let b = hex_digit(*l)? as usize;
    let c = hex_digit(*m)? as usize;
    let d = hex_digit(*n)? as usize;
    Some(a * 4096 + b * 256 + c * 16 + d)
}

// The low surrogate that stands next as an escape.
fn low(text: &[u8]) -> Option<usize>
    ensures { result ≡ unless_zero (low_surrogate text.now) }
{
    let [b'\\', b'u', rest @ ..] = text else {
        return None;
    };
    let l = hex4(rest)?;
    if 0xDC00 <= l && l <= 0xDFFF {
        return Some(l);
    }
    None
}

// The low surrogate behind the unit u, if u is a high one.
fn partner(text: &[u8], u: usize) -> Option<usize>
    ensures { result ≡ unless_zero (partner_of u text.now) }
{
    if u < 0xD800 {
        return None;
    }
    if 0xDBFF < u {
        return None;
    }
    low(text)
}

// Writes a character in UTF-8.
fn put_char(out: &mut [u8], at: usize, n: usize) -> usize
    requires { n < 1114112 }
    ensures { Wrote (pen out.old at) (utf8_of n) (pen out.new result) }
{
    if n < 128 {
        return octets::put(out, at, n as u8);
    }
    if n < 2048 {
        return octets::put_all(out, at, &[(192 + n / 64) as u8, (128 + n % 64) as u8]);
    }
    if n < 65536 {
        return octets::put_all(
            out,
            at,
            &[
                (224 + n / 4096) as u8,
                (128 + n / 64 % 64) as u8,
                (128 + n % 64) as u8,
            ],
        );
    }
    octets::put_all(
        out,
        at,
        &[
            (240 + n / 262144) as u8,
            (128 + n / 4096 % 64) as u8,
            (128 + n / 64 % 64) as u8,
            (128 + n % 64) as u8,
        ],
    )
}

// Reads what follows `\u`.
fn unicode<'a>(text: &'a [u8], tape: &mut [u8], to: usize) -> JsonRead<'a>
    ensures { Agrees (λ (xs : List ℕ). xs) (pen tape.old to) tape.new (unicode_of text.now) result }
{
    let Some(u) = hex4(text) else {
        return Err(JsonError::NotJson);
    };
    let rest = &text[4..];
    match partner(rest, u) {
        None => Ok((rest, put_char(tape, to, u))),
        Some(l) => Ok((
            &rest[6..],
            put_char(tape, to, 65536 + (u - 0xD800) * 1024 + (l - 0xDC00)),
        )),
    }
}

// The octet that a backslash and b stand for.
fn escape_of(b: u8) -> Option<u8>
    ensures { result ≡ unless_zero (escape_of b) }
{
    match b {
        b'"' | b'\\' | b'/' => Some(b),
        b'b' => Some(8),
        b'f' => Some(12),
        b'n' => Some(b'\n'),
        b'r' => Some(b'\r'),
        b't' => Some(b'\t'),
        _ => None,
    }
}

// Reads what follows a backslash.
fn escape<'a>(text: &'a [u8], tape: &mut [u8], to: usize) -> JsonRead<'a>
    ensures { Agrees (λ (xs : List ℕ). xs) (pen tape.old to) tape.new (escape_text text.now) result }
{
    let [b, rest @ ..] = text else {
        return Err(JsonError::NotJson);
    };
    if *b == b'u' {
        return unicode(rest, tape, to);
    }
    let Some(x) = escape_of(*b) else {
        return Err(JsonError::NotJson);
    };
    Ok((rest, octets::put(tape, to, x)))
}

// Reads what follows an opening quote; octets that stand for themselves are copied run by run.
pub(crate) fn string<'a>(text: &'a [u8], tape: &mut [u8], to: usize) -> JsonRead<'a>
    ensures { Agrees ser_string (pen tape.old to) tape.new (string_of text.now) result }
{
    let mut p = octets::put(tape, to, STRING);
    let mut left = text;
    loop {
        let n = octets::long_run_end(left, 0, Class::Unescaped);
        let (run, ended) = left.split_at(n);
        let q = octets::put_all(tape, p, run);
        match ended {
            [b'"', rest @ ..] => return Ok((rest, octets::put(tape, q, END))),
            [b'\\', rest @ ..] => {
                let (behind, m) = escape(rest, tape, q)?;
                left = behind;
                p = m;
            }
            _ => return Err(JsonError::NotJson),
        }
    }
}
