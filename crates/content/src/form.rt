// The form of content lines: name, parameters, colon, value.
ghost use Rattle.std.specs.Prelude.{◌≡◌};
ghost use Rattle.octets.specs.Basics.{all};
ghost use Rattle.content.specs.Lines.{cut_lines};
ghost use Rattle.content.specs.Form.{formed};
ghost use Rattle.content.specs.LinePlaces.{param_start, value_start, unquoted, place_after, is_value, Passes};

use crate::lines::line_end;
use octets::{Class, find, peek, run_end};

// The end of the parameter value that a text begins with, with its quotes.
fn value_end(s: &[u8]) -> usize
    ensures { Passes s.now value_start 0 unquoted result }
{
    if peek(s, 0) != b'"' {
        return run_end(s, 0, Class::Safe);
    }
    let e = find(s, 1, b'"');
    if e < s.len() { e + 1 } else { e }
}

// The end of the first value of the parameter that a text begins with; the end of the text where it lacks its form.
fn param_end(s: &[u8]) -> usize
    ensures { Passes s.now param_start 0 unquoted result }
{
    let n = run_end(s, 0, Class::Name);
    if n == 0 {
        return s.len();
    }
    if peek(s, n) != b'=' {
        return s.len();
    }
    n + 1 + value_end(&s[n + 1..])
}

// The form of a line behind its name or behind a parameter value.
fn tail_formed(s: &[u8]) -> bool
    ensures { result ≡ is_value (place_after unquoted s.now) }
{
    let mut rest = s;
    while let [c, next @ ..] = rest {
        match c {
            b':' => return true,
            b',' => {
                rest = &next[value_end(next)..];
            }
            b';' => {
                rest = &next[param_end(next)..];
            }
            _ => return false,
        }
    }
    false
}

// Test 4 of one line.
fn is_formed(line: &[u8]) -> bool
    ensures { result ≡ formed line.now }
{
    let n = run_end(line, 0, Class::Name);
    if n == 0 {
        return false;
    }
    if peek(line, n) == b',' {
        return false;
    }
    tail_formed(&line[n..])
}

// Test 4 of every line in a buffer. The next LF is found many octets at a time, which a `split` does not do.
pub(crate) fn all_formed(buf: &[u8]) -> bool
    ensures { result ≡ all formed (cut_lines buf.now) }
{
    let mut i = 0;
    while i < buf.len() {
        let e = line_end(buf, i);
        if !is_formed(&buf[i..e]) {
            return false;
        }
        i = e + 1;
    }
    true
}
