// Texts of content lines and single lines: a case has what is given, and what it must give. Octets may be written \n, \r, \t, \\ or \xHH.
use crate::parts::{before, behind, stands};
use content::NoType;
use octets::{Refusal, hex_digit, peek, put, put_all, same};

// Octets of a case.
const MOST: usize = 4096;

// The octet of two hexadecimal digits.
fn hex(a: u8, b: u8) -> u8 {
    match (hex_digit(a), hex_digit(b)) {
        (Some(high), Some(low)) => high * 16 + low,
        _ => 0,
    }
}

// The octet that is written as a backslash and `kind`.
fn escape(kind: u8) -> u8 {
    match kind {
        b'n' => b'\n',
        b'r' => b'\r',
        b't' => b'\t',
        _ => kind,
    }
}

// What is written in a part of a case. A part that ends in an escape is read as if octets 0 stood behind it.
fn unescape(s: &[u8], out: &mut [u8]) -> usize {
    let mut to = 0;
    let mut left = s;
    while let [c, rest @ ..] = left {
        let (octet, behind) = match left {
            [b'\\', b'x', high, low, behind @ ..] => (hex(*high, *low), behind),
            [b'\\', b'x', tail @ ..] => (hex(peek(tail, 0), peek(tail, 1)), &tail[tail.len()..]),
            [b'\\', kind, behind @ ..] => (escape(*kind), behind),
            [b'\\'] => (0, rest),
            _ => (*c, rest),
        };
        to = put(out, to, octet);
        left = behind;
    }
    to
}

// The lines of a text, each ended by LF, or the number that refuses them.
fn text_gives(text: &[u8], want: &[u8]) -> bool {
    let mut lines = [0u8; MOST];
    match content::read_lines(text, &mut lines) {
        Ok(n) => stands(&lines, 0, n, want),
        Err(Refusal::NotClean) => same(want, b"refused 3"),
        Err(Refusal::NotContentLine) => same(want, b"refused 4"),
        Err(_) => false,
    }
}

// The type that VALUE names, or `-`; `7` where the parameters are at fault.
fn put_type(out: &mut [u8], at: usize, params: &[u8]) -> usize {
    if content::name_twice(params) {
        return put(out, at, b'7');
    }
    match content::value_type(params) {
        Ok(None) => put(out, at, b'-'),
        Ok(Some(name)) => octets::put_lower(out, at, name),
        Err(NoType) => put(out, at, b'7'),
    }
}

// The type, and the encoding.
fn put_told(out: &mut [u8], at: usize, params: &[u8]) -> usize {
    let bar = put(out, at, b'|');
    let end = put_type(out, bar, params);
    if content::is_encoded(params) {
        return put_all(out, end, b" base64");
    }
    end
}

// Name, parameters as an object, value and type of a content line.
fn put_parts(out: &mut [u8], line: &[u8]) -> usize {
    let p = content::parts_of(line);
    let name = p.name;
    let colon = p.colon;
    let value = p.value;
    let a = put_all(out, 0, &line[0..name]);
    let b = put(out, a, b'|');
    let c = content::put_params(out, b, &line[name..colon], false);
    let d = put(out, c, b'|');
    let e = put_all(out, d, &line[value..]);
    put_told(out, e, &line[name..colon])
}

fn line_gives(line: &[u8], want: &[u8]) -> bool {
    let mut out = [0u8; MOST];
    let n = put_parts(&mut out, line);
    stands(&out, 0, n, want)
}

fn gives(texts: bool, given: &[u8], want: &[u8]) -> bool {
    if texts {
        text_gives(given, want)
    } else {
        line_gives(given, want)
    }
}

pub(crate) fn holds(texts: bool, case: &[u8]) -> bool {
    let mut given = [0u8; MOST];
    let mut want = [0u8; MOST];
    let n = unescape(before(case, b'\t'), &mut given);
    let m = unescape(behind(case, b'\t'), &mut want);
    n <= MOST && m <= MOST && gives(texts, &given[0..n], &want[0..m])
}
