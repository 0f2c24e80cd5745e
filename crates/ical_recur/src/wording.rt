// The members of a recurrence object, tested and written in one walk: their text as the recurrence reader takes it, with semicolons between the parts.
ghost use Rattle.std.specs.Prelude.{◌≡◌};
ghost use Rattle.octets.specs.Pen.{pen, Wrote};
ghost use Rattle.calendar.specs.Walk.{part_sort_said};
ghost use Rattle.json_text.specs.Tape.{tag_end};
ghost use Rattle.tape.specs.Decode.{tag_at, value_at, items_at, members_at};
ghost use Rattle.tape.specs.Promise.{Next, Left};
ghost use Rattle.values.specs.Recur.{some_items, kind_is, kinds_are, string_text, item_text, member_text};
ghost use Rattle.ical_recur.specs.Kinds.{item_is, member_is};
ghost use Rattle.ical_recur.specs.Laying.{LaidAs};
ghost use Rattle.ical_recur.specs.Wording.{items_text, part_values_text, object_text};

use crate::kinds::{number_is, string_is};
use calendar::items::has_several;
use calendar::parts::{PartSort, key_named, sort_of};
use calendar::texts::{Form, basic, put_text};
use octets::{is_lower_name, put, put_all, put_integer_text, put_upper};
use tape::{ARRAY, END, NUMBER, STRING, after, tag, text_at};

// Writes a string; UNTIL in the basic form.
fn put_string(out: &mut [u8], at: usize, sort: PartSort, s: &[u8]) -> usize
    ensures { Wrote (pen out.old at) (string_text (part_sort_said sort) s.now) (pen out.new result) }
{
    match sort {
        PartSort::Moment => put_text(out, at, basic(Form::DateTime, s)),
        _ => put_all(out, at, s),
    }
}

// Tests and writes the value at i, and tells where the next octet goes, and the place on the tape that was reached; none, where it is none of a rule.
fn lay_item(out: &mut [u8], at: usize, t: &[u8], i: usize, sort: PartSort) -> Option<(usize, usize)>
    ensures { LaidAs (item_is (part_sort_said sort) (value_at t.now i)) (item_text (part_sort_said sort) (value_at t.now i))
        (pen out.old at) out.new (Next t.now i) result }
{
    let x = text_at(t, i);
    let s = &t[x.from..x.to];
    match tag(t, i) {
        STRING if string_is(sort, s) => Some((put_string(out, at, sort, s), x.next)),
        NUMBER if number_is(sort, s) => Some((put_integer_text(out, at, s), x.next)),
        _ => None,
    }
}

// Tests and writes one or more values from i to the end of their array, with commas between them.
fn lay_items(
    out: &mut [u8],
    at: usize,
    t: &[u8],
    i: usize,
    sort: PartSort,
) -> Option<(usize, usize)>
    ensures { LaidAs (some_items (item_is (part_sort_said sort)) (items_at t.now i)) (items_text (part_sort_said sort) (items_at t.now i))
        (pen out.old at) out.new (Left t.now i) result }
{
    if tag(t, i) == END {
        return None;
    }
    let mut to = at;
    let mut from = i;
    loop {
        let (q, e) = lay_item(out, to, t, from, sort)?;
        if tag(t, e) == END {
            return Some((q, after(t, e)));
        }
        to = put(out, q, b',');
        from = e;
    }
}

// Tests and writes what a part has at i: a plain value, or an array of one or more where it may have several.
fn lay_values(
    out: &mut [u8],
    at: usize,
    t: &[u8],
    i: usize,
    sort: PartSort,
) -> Option<(usize, usize)>
    ensures { LaidAs (kind_is (part_sort_said sort) (value_at t.now i)) (part_values_text (part_sort_said sort) (value_at t.now i))
        (pen out.old at) out.new (Next t.now i) result }
{
    if tag(t, i) != ARRAY {
        return lay_item(out, at, t, i, sort);
    }
    if !has_several(sort) {
        return None;
    }
    let from = after(t, i);
    lay_items(out, at, t, from, sort)
}

// Tests and writes a member: a lowercase name of a part, and what the part has at i.
fn lay_member(out: &mut [u8], at: usize, name: &[u8], t: &[u8], i: usize) -> Option<(usize, usize)>
    ensures { LaidAs (member_is name.now (value_at t.now i)) (member_text name.now (value_at t.now i))
        (pen out.old at) out.new (Next t.now i) result }
{
    if !is_lower_name(name) {
        return None;
    }
    let Some(key) = key_named(name) else {
        return None;
    };
    let named = put_upper(out, at, name);
    let from = put(out, named, b'=');
    lay_values(out, from, t, i, sort_of(Some(key)))
}

// Tests and writes the members from i to the end of the object, which is the place that is reached.
pub fn lay_members(out: &mut [u8], at: usize, t: &[u8], i: usize) -> Option<(usize, usize)>
    ensures { LaidAs (kinds_are (members_at t.now i)) (object_text (members_at t.now i))
        (pen out.old at) out.new (λ e. tag_at t.now e ≡ tag_end) result }
{
    if tag(t, i) == END {
        return Some((at, i));
    }
    let mut to = at;
    let mut from = i;
    loop {
        let k = text_at(t, from);
        let (q, e) = lay_member(out, to, &t[k.from..k.to], t, k.next)?;
        if tag(t, e) == END {
            return Some((q, e));
        }
        to = put(out, q, b';');
        from = e;
    }
}
