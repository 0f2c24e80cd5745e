// JSON strings written (01, Values): only the double quote, backslash, newline and tab are escaped, each by two characters.
ghost use Rattle.octets.specs.Pen.{pen, Wrote};
ghost use Rattle.json_text.specs.Print.{escaped, print_string};
ghost use Rattle.json_text.specs.Promise.{WrittenAs};

use octets::Class;

// What stands behind a backslash for b in a string; none, where b stands as it is.
fn escape_for(b: u8) -> Option<u8>
    ensures { WrittenAs b result }
{
    match b {
        b'"' | b'\\' => Some(b),
        b'\n' => Some(b'n'),
        b'\t' => Some(b't'),
        _ => None,
    }
}

// Writes one octet of a string.
pub fn put_escaped(out: &mut [u8], at: usize, b: u8) -> usize
    ensures { Wrote (pen out.old at) (escaped b) (pen out.new result) }
{
    match escape_for(b) {
        None => octets::put(out, at, b),
        Some(e) => {
            let q = octets::put(out, at, b'\\');
            octets::put(out, q, e)
        }
    }
}

// Writes a string between quotes; octets that are written as they are go run by run.
pub fn put_string(out: &mut [u8], at: usize, s: &[u8]) -> usize
    ensures { Wrote (pen out.old at) (print_string s.now) (pen out.new result) }
{
    let mut p = octets::put(out, at, b'"');
    let mut i = 0;
    while i < s.len() {
        let e = octets::run_end(s, i, Class::AsIs);
        let q = octets::put_all(out, p, &s[i..e]);
        if e == s.len() {
            return octets::put(out, q, b'"');
        }
        p = put_escaped(out, q, s[e]);
        i = e + 1;
    }
    octets::put(out, p, b'"')
}
