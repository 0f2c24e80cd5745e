// Text values: escapes, and the separators between texts. Octets that are written as they stand go run by run. A writer that tests answers where the
// next octet goes, if the value stands.
#![tactic(auto)]

ghost use Rattle.std.specs.Prelude.{◌≡◌, false, map, ◌≤◌, ◌<◌, length};
ghost use Rattle.octets.specs.Basics.{◌or◌, single};
ghost use Rattle.octets.specs.Classes.{upper};
ghost use Rattle.octets.specs.Groups.{text_as_is};
ghost use Rattle.octets.specs.Optional.{map?, guard};
ghost use Rattle.octets.specs.Pen.{pen, Wrote};
ghost use Rattle.octets.specs.Search.{ClassRun};
ghost use Rattle.values.specs.TextWalk.{texts_from, texts};
ghost use Rattle.json_text.specs.Tree.{str};
ghost use Rattle.json_text.specs.Print.{print_string, print, values_json};
ghost use Rattle.values.specs.Read.{read_plain, read_status};
ghost use Rattle.jcal_texts.specs.Trying.{Tried, WroteTexts, StandsFor, StepsAt};

use json_text::put_escaped;
use octets::{Class, is_plain_octet, long_run_end, peek, put, put_all, upper_octet};

// What stands in a text: an octet, with the place behind it, or a bare separator.
#[derive(Clone, Copy)]
enum Step {
    Octet(u8, usize),
    Separator,
}

// The end of the run at `at`. It stands by itself so that the search is compiled for this class alone.
fn past_run(s: &[u8], at: usize) -> usize
    requires { at ≤ length s.now }
    ensures { ClassRun text_as_is s.now at result }
{
    long_run_end(s, at, Class::TextAsIs)
}

// The octet that c stands for behind a backslash, where it may stand there.
#[tactic(auto, unfolding(values::specs::TextWalk::act))]
fn unescaped(c: u8) -> Option<u8>
    ensures { StandsFor c result }
{
    match c {
        b'\\' | b';' | b',' => Some(c),
        b'n' | b'N' => Some(b'\n'),
        _ => None,
    }
}

// What stands at i, if it is allowed.
fn step_at(s: &[u8], i: usize, sep: u8, other: u8) -> Option<Step>
    requires { i < length s.now }
    ensures { StepsAt sep other s.now i result }
{
    let c = s[i];
    if c == b'\\' {
        let d = unescaped(peek(s, i + 1))?;
        return Some(Step::Octet(d, i + 2));
    }
    if c == sep {
        return Some(Step::Separator);
    }
    if c == other || !is_plain_octet(c) {
        return None;
    }
    Some(Step::Octet(c, i + 1))
}

// Tests the texts between bare separators and writes them behind their first quote, as strings with a comma between them: where the next octet goes, and how many
// there are.
fn put_between(out: &mut [u8], at: usize, s: &[u8], sep: u8, other: u8) -> Option<(usize, usize)>
    requires { (text_as_is sep ≡ false) × (text_as_is other ≡ false) }
    ensures { WroteTexts (texts_from sep other false s.now) (pen out.old at) out.new result }
{
    let mut p = at;
    let mut n = 1;
    let mut i = 0;
    loop {
        let e = past_run(s, i);
        let q = put_all(out, p, &s[i..e]);
        if e == s.len() {
            return Some((put(out, q, b'"'), n));
        }
        match step_at(s, e, sep, other)? {
            Step::Octet(c, j) => {
                p = put_escaped(out, q, c);
                i = j;
            }
            Step::Separator => {
                p = put_all(out, q, b"\",\"");
                n += 1;
                i = e + 1;
            }
        }
    }
}

// Tests the texts between bare commas, one only where there may not be many, and writes each with a comma before it.
pub fn put_tested_texts(out: &mut [u8], at: usize, s: &[u8], many: bool) -> Option<usize>
    ensures { Tried (guard (λ vs. many or single vs) (map? (map str) (texts s.now))) values_json (pen out.old at) out.new result }
{
    let first = put_all(out, at, b",\"");
    let (q, n) = put_between(out, first, s, b',', b';')?;
    if many || n == 1 { Some(q) } else { None }
}

// Tests the two or three texts of REQUEST-STATUS, between bare semicolons, and writes an array of them.
pub fn put_tested_status(out: &mut [u8], at: usize, s: &[u8]) -> Option<usize>
    ensures { Tried (read_status s.now) print (pen out.old at) out.new result }
{
    let first = put_all(out, at, b"[\"");
    let (q, n) = put_between(out, first, s, b';', b',')?;
    if n < 2 || n > 3 {
        return None;
    }
    Some(put(out, q, b']'))
}

// Tests that no control character but tab stands there, and writes a string.
pub fn put_tested_plain(out: &mut [u8], at: usize, s: &[u8]) -> Option<usize>
    ensures { Tried (read_plain s.now) print (pen out.old at) out.new result }
{
    let mut p = put(out, at, b'"');
    let mut i = 0;
    loop {
        let e = past_run(s, i);
        let q = put_all(out, p, &s[i..e]);
        if e == s.len() {
            return Some(put(out, q, b'"'));
        }
        let c = s[e];
        if !is_plain_octet(c) {
            return None;
        }
        p = put_escaped(out, q, c);
        i = e + 1;
    }
}

// Writes a string in uppercase.
pub fn put_upper_string(out: &mut [u8], at: usize, s: &[u8]) -> usize
    ensures { Wrote (pen out.old at) (print_string (upper s.now)) (pen out.new result) }
{
    let mut p = put(out, at, b'"');
    for &c in s {
        p = put_escaped(out, p, upper_octet(c));
    }
    put(out, p, b'"')
}
