// Components as jCal: the name, then the properties, then the sub-components, each in order.
ghost use Rattle.std.specs.Prelude.{◌≡◌, true, false, ◌++◌, ◌+◌, ◌≤◌, length, drop};
ghost use Rattle.octets.specs.Basics.{octets};
ghost use Rattle.octets.specs.Pen.{pen, Wrote};
ghost use Rattle.octets.specs.Answers.{outcome, answer};
ghost use Rattle.json_text.specs.Print.{print};
ghost use Rattle.types.specs.Laid.{table_in};
ghost use Rattle.content.specs.Line.{line_of};
ghost use Rattle.content.specs.Reading.{room_for_lines};
ghost use Rattle.conversion_theory.specs.Tree.{levels};
ghost use Rattle.conversion_theory.specs.Property.{read_property};
ghost use Rattle.conversion_theory.specs.Jcal.{jcal_of};
ghost use Rattle.jcal.specs.Events.{events_in, LineAt, name_from, Named, Outermost};
ghost use Rattle.jcal.specs.Components.{behind_end, component_at, leading_comma, properties_text, name_text};
ghost use Rattle.jcal.specs.Placing.{ready, PlacesItem, Behind, EndNext, NextFound, Ended, PartPlaced};
ghost use Rattle.jcal.specs.Stages.{properties_jcal};

use crate::events::{LineKind, LinesFrom, end_at, kind_at};
use crate::paired::Calendar;
use jcal_properties::{place_property, put_name};
use octets::{MOST_LEVELS, Refusal, finish, put, put_all, refuse};

// What stands next in a component, with the place of the next octet to write: a sub-component, by the place of its name and the end of that line,
// or the END of the component, by the line behind it.
#[derive(Clone, Copy)]
pub(crate) enum NextItem {
    Sub(usize, usize, usize),
    Close(usize, usize),
}

// Writes a comma, but before the first item.
fn put_comma(out: &mut [u8], at: usize, first: bool) -> usize
    ensures { Wrote (pen out.old at) (leading_comma first) (pen out.new result) }
{
    if first {
        return at;
    }
    put(out, at, b',')
}

// Tests and writes a property as an item.
fn place_item(
    line: &[u8],
    rows: &[u8],
    first: bool,
    out: &mut [u8],
    at: usize,
) -> Result<usize, Refusal>
    requires { length line.now ≤ room_for_lines }
    ensures { PlacesItem (read_property (table_in rows.now) (line_of line.now)) first (pen out.old at) out.new result }
{
    let to = put_comma(out, at, first);
    place_property(line, rows, out, to)
}

// The line behind the END of the component whose lines begin at `from`.
fn behind_end(buf: &[u8], from: usize) -> usize
    ensures { Behind buf.now from result }
{
    let mut lines = LinesFrom { buf, at: from };
    let mut within: usize = 0;
    while let Some(line) = lines.next() {
        match line.kind {
            LineKind::Opens(_) => within += 1,
            LineKind::Closes(_) => {
                if within == 0 {
                    return lines.at;
                }
                within -= 1;
            }
            LineKind::Plain | LineKind::Broken => {}
        }
    }
    lines.at
}

// What stands next from the line at `from` on, whatever properties come first.
fn next_at(buf: &[u8], from: usize, at: usize) -> NextItem
    ensures { NextFound buf.now from at result }
{
    let mut lines = LinesFrom { buf, at: from };
    while let Some(line) = lines.next() {
        match line.kind {
            LineKind::Opens(name) => return NextItem::Sub(name, line.end, at),
            LineKind::Closes(_) => return NextItem::Close(lines.at, at),
            LineKind::Plain | LineKind::Broken => {}
        }
    }
    NextItem::Close(lines.at, at)
}

// Writes a component up to its properties.
fn open_component(buf: &[u8], name: usize, e: usize, out: &mut [u8], at: usize) -> usize
    requires { Named buf.now name e }
    ensures { Wrote (pen out.old at) (name_text (name_from buf.now name)) (pen out.new result) }
{
    let a = put(out, at, b'[');
    let b = put_name(out, a, &buf[name..e]);
    put_all(out, b, b",[")
}

// Ends the properties of the component whose lines begin at `from`. In order, its END stands next, before the line `end`;
// else what stands next is looked for from the first line on.
fn end_properties(
    calendar: Calendar,
    from: usize,
    end: usize,
    out: &mut [u8],
    at: usize,
) -> NextItem
    requires { calendar.in_order ≡ true → EndNext calendar.lines.now from (events_in (drop from calendar.lines.now)) end }
    ensures { Ended calendar.entry.lines.now from (pen out.old at) out.new result }
{
    let to = put_all(out, at, b"],[");
    if calendar.in_order {
        return NextItem::Close(end, to);
    }
    next_at(calendar.lines, from, to)
}

// Tests and writes the properties of the component whose lines begin at `from`, and finds what stands next in it.
// In order, no property stands behind a sub-component; else the lines of sub-components are passed over.
fn place_properties(
    calendar: Calendar,
    from: usize,
    out: &mut [u8],
    at: usize,
) -> Result<NextItem, Refusal>
    requires { ready (read_property (table_in calendar.rows.now)) calendar.in_order false (events_in (drop from calendar.lines.now)) ≡ true }
    ensures { PartPlaced (read_property (table_in calendar.entry.rows.now)) calendar.entry.lines.now from (events_in (drop from calendar.entry.lines.now)) (events_in (drop from calendar.entry.lines.now)) (pen out.old at) (properties_text (read_property (table_in calendar.entry.rows.now)) true (events_in (drop from calendar.entry.lines.now)) ++ octets ",[") out.new result }
{
    let mut to = at;
    let mut lines = LinesFrom {
        buf: calendar.lines,
        at: from,
    };
    let mut first = true;
    while let Some(line) = lines.next() {
        match line.kind {
            LineKind::Plain => {
                let text = &calendar.lines[line.at..line.end];
                to = place_item(text, calendar.rows, first, out, to)?;
                first = false;
            }
            LineKind::Opens(name) => {
                if calendar.in_order {
                    return Ok(NextItem::Sub(name, line.end, put_all(out, to, b"],[")));
                }
                lines.at = behind_end(calendar.lines, lines.at);
            }
            LineKind::Closes(_) => {
                return Ok(end_properties(calendar, from, lines.at, out, to));
            }
            LineKind::Broken => {}
        }
    }
    Ok(end_properties(calendar, from, lines.at, out, to))
}

// Tests and writes the component whose name stands from `name` to `e`, and its sub-components by the same rule; at most `left` levels are left.
// Answers what stands next in the component around.
fn place_component(
    calendar: Calendar,
    name: usize,
    e: usize,
    left: usize,
    out: &mut [u8],
    at: usize,
) -> Result<NextItem, Refusal>
    requires named { Named calendar.lines.now name e }
    requires lines_value { ready (read_property (table_in calendar.rows.now)) calendar.in_order false (events_in (drop (e + 1) calendar.lines.now)) ≡ true }
    requires lines_bound { levels (component_at (read_property (table_in calendar.rows.now)) (name_from calendar.lines.now name) (events_in (drop (e + 1) calendar.lines.now))) ≤ left }
    ensures { PartPlaced (read_property (table_in calendar.entry.rows.now)) calendar.entry.lines.now (e + 1) (events_in (drop (e + 1) calendar.entry.lines.now)) (behind_end 0 (events_in (drop (e + 1) calendar.entry.lines.now))) (pen out.old at) (print (jcal_of (component_at (read_property (table_in calendar.entry.rows.now)) (name_from calendar.entry.lines.now name) (events_in (drop (e + 1) calendar.entry.lines.now))))) out.new result }
{
    let a = open_component(calendar.lines, name, e, out, at);
    let mut next = place_properties(calendar, e + 1, out, a)?;
    let mut first = true;
    loop {
        match next {
            NextItem::Sub(inner, f, to) => {
                let item = put_comma(out, to, first);
                next = place_component(calendar, inner, f, left - 1, out, item)?;
                first = false;
            }
            NextItem::Close(i, to) => {
                let end = put_all(out, to, b"]]");
                return Ok(next_at(calendar.lines, i, end));
            }
        }
    }
}

// The place of the outermost component's name in the first line, which ends at e.
fn outermost_name(calendar: Calendar, e: usize) -> usize
    requires { LineAt calendar.lines.now 0 e }
    ensures { Outermost calendar.entry.lines.now e result }
{
    match kind_at(calendar.lines, 0, e) {
        LineKind::Opens(name) => name,
        _ => 0,
    }
}

// Converts a calendar: tests 7, 8 and 9 if it is in order; another has passed these.
pub(crate) fn place_calendar(calendar: Calendar, out: &mut [u8]) -> Result<usize, Refusal>
    requires { ready (read_property (table_in calendar.rows.now)) calendar.in_order false (events_in calendar.lines.now) ≡ true }
    ensures { outcome result out.new ≡ answer (properties_jcal (read_property (table_in calendar.entry.rows.now)) (events_in calendar.entry.lines.now)) out.old }
{
    let e = end_at(calendar.lines, 0);
    let name = outermost_name(calendar, e);
    match place_component(calendar, name, e, MOST_LEVELS, out, 0) {
        Ok(NextItem::Sub(_, _, at)) => finish(out, at),
        Ok(NextItem::Close(_, at)) => finish(out, at),
        Err(why) => refuse(out, why),
    }
}
