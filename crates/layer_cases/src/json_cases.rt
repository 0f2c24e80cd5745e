// Texts read as JSON: a case names a file. Prints the answer for each, with the tape's length and checksum.
// y_ is JSON, n_ is none, i_ is decided by 01; q_ is written as a JSON string and read back.
use crate::parts::behind;
use console::rest_is;
use json_text::JsonError;
use std::io;
use std::rt::Files;

// Octets of the tape of the longest text.
const MOST_TAPE: usize = 2 * octets::MOST_TEXT + 2;

// What a tape holds where nothing is written.
const BLANK: u8 = 170;

// Adler-32.
fn checksum(s: &[u8]) -> u32 {
    let mut a: u32 = 1;
    let mut b: u32 = 0;
    for &c in s {
        a = (a + c as u32) % 65521;
        b = (b + a) % 65521;
    }
    b * 65536 + a
}

// A tape that is an octet too short is answered as such, and zeroed.
fn short_is_told(text: &[u8], tape: &mut [u8]) -> bool {
    match json_text::parse(text, tape) {
        Err(JsonError::NoRoom) => rest_is(tape, 0, 0),
        _ => false,
    }
}

// A tape of n octets: what lies behind it is unchanged, and a shorter one is too short.
fn accepted(rt: &impl Print, text: &[u8], tape: &mut [u8], n: usize) -> io::Result<bool> {
    if n < 1 {
        return Ok(false);
    }
    if tape.len() < n {
        return Ok(false);
    }
    let sum = checksum(&tape[0..n]);
    print!(rt; " tape {n} {sum}")?;
    if !rest_is(tape, n, BLANK) {
        return Ok(false);
    }
    let short = &mut tape[0..n - 1];
    Ok(short_is_told(text, short))
}

// A refusal: the tape is zeroed.
fn refused(rt: &impl Print, tape: &[u8], why: &[u8]) -> io::Result<bool> {
    rt.write_all(why)?;
    Ok(rest_is(tape, 0, 0))
}

fn is_read(rt: &impl Print, text: &[u8]) -> io::Result<bool> {
    let mut tape = [BLANK; MOST_TAPE];
    match json_text::parse(text, &mut tape) {
        Ok(n) => accepted(rt, text, &mut tape, n),
        Err(JsonError::TooDeep) => refused(rt, &tape, b" too deep"),
        Err(JsonError::NotJson) => refused(rt, &tape, b" not JSON"),
        Err(JsonError::NoRoom) => Ok(false),
    }
}

// Writes the octets as a JSON string, and reads that.
fn is_quoted(rt: &impl Print, s: &[u8]) -> io::Result<bool> {
    let mut out = [0u8; MOST_TAPE];
    let n = json_text::put_string(&mut out, 0, s);
    if MOST_TAPE < n {
        return Ok(false);
    }
    is_read(rt, &out[0..n])
}

pub(crate) fn holds(rt: &(impl Files + Print), case: &[u8]) -> io::Result<bool> {
    let mut text = [0u8; console::ROOM_FOR_TEXT];
    let n = console::load(rt, case, &mut text);
    let name = behind(case, b'/');
    rt.write_all(name)?;
    let held = if octets::peek(name, 0) == b'q' {
        is_quoted(rt, &text[0..n])?
    } else {
        is_read(rt, &text[0..n])?
    };
    rt.write_all(b"\n")?;
    Ok(held)
}
