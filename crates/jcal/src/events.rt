// What a line is: BEGIN or END of a component, or a property; and the lines of a buffer, one after the other.
ghost use Rattle.std.specs.Prelude.{◌≡◌, true, false, not, eqb, ◌<◌, ◌-◌, length, drop};
ghost use Rattle.std.specs.Iterator.{at_most};
ghost use Rattle.octets.specs.Basics.{◌or◌, filled};
ghost use Rattle.octets.specs.Classes.{is_name, same_name};
ghost use Rattle.content.specs.Line.{line_of};
ghost use Rattle.content.specs.Scan.{until_bare};
ghost use Rattle.conversion_theory.specs.Structure.{bounds};
ghost use Rattle.jcal.specs.Events.{LineAt, TellsLine, GivesLine};

use content::line_end;
use octets::{is_name, same_name};

// BEGIN or END with the place of the component's name, a property, or a BEGIN or END that is neither.
#[derive(Clone, Copy)]
pub(crate) enum LineKind {
    Opens(usize),
    Closes(usize),
    Plain,
    Broken,
}

// Where the line that begins at i ends.
pub(crate) fn end_at(buf: &[u8], i: usize) -> usize
    requires { i < length buf.now }
    ensures { LineAt buf.now i result }
{
    line_end(buf, i)
}

// A name can end at n: a colon or a semicolon stands there, or nothing.
fn ends_name(line: &[u8], n: usize) -> bool
    ensures { result ≡ not (filled (until_bare (λ c. eqb c 59 or eqb c 58) false (drop n line.now))) }
{
    line.len() <= n || line[n] == b';' || line[n] == b':'
}

// The line's name is this one.
fn is_called(line: &[u8], name: &[u8]) -> bool
    requires { is_name name.now ≡ true }
    ensures { result ≡ same_name (line_of line.now).name name.now }
{
    let n = name.len();
    n <= line.len() && ends_name(line, n) && same_name(&line[..n], name)
}

// Behind the name, which ends at n, stand a colon and the name of a component.
fn has_bounds(line: &[u8], n: usize) -> bool
    requires { length (line_of line.now).name ≡ n }
    ensures { result ≡ bounds (line_of line.now) }
{
    n < line.len() && line[n] == b':' && is_name(&line[n + 1..])
}

// What the line from i to e is.
pub(crate) fn kind_at(buf: &[u8], i: usize, e: usize) -> LineKind
    requires { LineAt buf.now i e }
    ensures { TellsLine buf.now i e result }
{
    let line = &buf[i..e];
    if is_called(line, b"BEGIN") {
        if has_bounds(line, 5) {
            return LineKind::Opens(i + 6);
        }
        return LineKind::Broken;
    }
    if is_called(line, b"END") {
        if has_bounds(line, 3) {
            return LineKind::Closes(i + 4);
        }
        return LineKind::Broken;
    }
    LineKind::Plain
}

// A line of a buffer: where it begins and ends, and what it is.
#[derive(Clone, Copy)]
pub(crate) struct ToldLine {
    pub(crate) at: usize,
    pub(crate) end: usize,
    pub(crate) kind: LineKind,
}

// The lines of a buffer from the one on that begins at a place.
#[derive(Clone, Copy)]
pub(crate) struct LinesFrom<'a> {
    pub(crate) buf: &'a [u8],
    pub(crate) at: usize,
}

impl<'a> Iterator for LinesFrom<'a> {
    type Item = ToldLine;

    ghost next_gives = { λ s r t. GivesLine s.buf.now s.at r t.buf.now t.at };

    ghost remaining = { λ s. at_most (length s.buf.now - s.at) };

    #[inline(always)]
    fn next(&mut self) -> Option<ToldLine> {
        let buf = self.buf;
        let at = self.at;
        if buf.len() <= at {
            return None;
        }
        let end = end_at(buf, at);
        let kind = kind_at(buf, at, end);
        self.at = end + 1;
        Some(ToldLine { at, end, kind })
    }
}
