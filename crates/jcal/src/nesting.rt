// Numbers 5 and 6: BEGIN and END pair to exactly one outermost VCALENDAR, at most 8 deep.
ghost use Rattle.std.specs.Prelude.{◌≡◌, ◌<◌};
ghost use Rattle.octets.specs.Answers.{answered};
ghost use Rattle.octets.specs.Basics.{same};
ghost use Rattle.octets.specs.Classes.{lower};
ghost use Rattle.octets.specs.Limits.{most_levels};
ghost use Rattle.conversion_theory.specs.Structure.{fresh, nest_after, verdict};
ghost use Rattle.jcal.specs.Events.{events_in, name_from};
ghost use Rattle.jcal.specs.Nesting.{inner, nest_of, around_of, NestsBehind, Judged};
ghost use Rattle.jcal.specs.Order.{ordered, OrderKept, EndTold};

use crate::events::{LineKind, LinesFrom, end_at};
use crate::named::NamedLine;
use octets::{MOST_LEVELS, Refusal, same_name};

// Before the first line; in a component with so many around it; or behind the outermost one.
#[derive(Clone, Copy)]
enum Nesting {
    Unbegun,
    Within(usize),
    Complete,
}

// The name of a component is that which begins at this place.
fn is_named(buf: &[u8], at: usize, name: &[u8]) -> bool
    ensures { result ≡ same (lower name.now) (name_from buf.now at) }
{
    if buf.len() <= at {
        return name.len() == 0;
    }
    let e = end_at(buf, at);
    same_name(name, &buf[at..e])
}

// Behind a line where no component was begun before it.
fn after_first(line: NamedLine, names: &mut [usize; MOST_LEVELS]) -> Result<Nesting, Refusal>
    ensures { NestsBehind line.entry.buf.now names.new fresh line.entry.kind result }
{
    match line.kind {
        LineKind::Opens(at) => {
            if same_name(&line.buf[at..line.end], b"VCALENDAR") {
                names[0] = at;
                return Ok(Nesting::Within(0));
            }
            Err(Refusal::NotPaired)
        }
        _ => Err(Refusal::NotPaired),
    }
}

// Behind a line in a component with so many around it.
fn after_inner(
    line: NamedLine,
    around: usize,
    names: &mut [usize; MOST_LEVELS],
) -> Result<Nesting, Refusal>
    requires { around < most_levels }
    ensures { NestsBehind line.entry.buf.now names.new (inner line.entry.buf.now names.old around) line.entry.kind result }
{
    match line.kind {
        LineKind::Opens(at) => {
            let next = around + 1;
            if next < MOST_LEVELS {
                names[next] = at;
                return Ok(Nesting::Within(next));
            }
            Err(Refusal::TooDeep)
        }
        LineKind::Closes(at) => {
            let open = names[around];
            if !is_named(line.buf, open, &line.buf[at..line.end]) {
                return Err(Refusal::NotPaired);
            }
            if around == 0 {
                return Ok(Nesting::Complete);
            }
            Ok(Nesting::Within(around - 1))
        }
        LineKind::Plain => Ok(Nesting::Within(around)),
        LineKind::Broken => Err(Refusal::NotPaired),
    }
}

// Behind a line.
fn after_line(
    line: NamedLine,
    nesting: Nesting,
    names: &mut [usize; MOST_LEVELS],
) -> Result<Nesting, Refusal>
    requires { around_of nesting < most_levels }
    ensures { NestsBehind line.entry.buf.now names.new (nest_of line.entry.buf.now names.old nesting) line.entry.kind result }
{
    match nesting {
        Nesting::Unbegun => after_first(line, names),
        Nesting::Within(around) => after_inner(line, around, names),
        Nesting::Complete => Err(Refusal::NotPaired),
    }
}

// Lines in order stay so, unless a property stands directly behind an END line.
fn keeps_order(in_order: bool, behind: bool, kind: LineKind) -> bool
    ensures { OrderKept in_order behind kind result }
{
    match kind {
        LineKind::Opens(_) => in_order,
        LineKind::Closes(_) => in_order,
        LineKind::Plain => in_order && !behind,
        LineKind::Broken => in_order,
    }
}

// The next line stands directly behind an END line.
fn is_behind(behind: bool, kind: LineKind) -> bool
    ensures { EndTold behind kind result }
{
    match kind {
        LineKind::Opens(_) => false,
        LineKind::Closes(_) => true,
        LineKind::Plain => false,
        LineKind::Broken => behind,
    }
}

// Behind the last line: a missing END counts there.
fn at_end(nesting: Nesting, in_order: bool) -> Result<bool, Refusal>
    ensures { Judged nesting in_order result }
{
    match nesting {
        Nesting::Unbegun => Err(Refusal::NotPaired),
        Nesting::Within(_) => Err(Refusal::NotPaired),
        Nesting::Complete => Ok(in_order),
    }
}

// Tests 5 and 6, at the first line in fault, and whether the lines are in order.
pub(crate) fn test_structure(buf: &[u8]) -> Result<bool, Refusal>
    ensures { answered result ≡ verdict (nest_after fresh (events_in buf.now)) (ordered (events_in buf.now)) }
{
    let mut names = [0usize; MOST_LEVELS];
    let mut nesting = Nesting::Unbegun;
    let mut in_order = true;
    let mut behind = false;
    for line in (LinesFrom { buf, at: 0 }) {
        let named = NamedLine {
            buf,
            end: line.end,
            kind: line.kind,
        };
        nesting = after_line(named, nesting, &mut names)?;
        in_order = keeps_order(in_order, behind, line.kind);
        behind = is_behind(behind, line.kind);
    }
    at_end(nesting, in_order)
}
