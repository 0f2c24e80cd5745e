// The recurrence object of jCal, written from a recurrence rule.
ghost use Rattle.std.specs.Prelude.{ℕ, List};
ghost use Rattle.octets.specs.Pen.{pen, Wrote};
ghost use Rattle.calendar.specs.Walk.{part_sort_said};
ghost use Rattle.values.specs.Shown.{item_json_shown, items_shown, key_shown, list_shown, part_json_shown, recur_shown};
ghost use Rattle.jcal_values.specs.Parts.{word_shown};

use crate::forms::put_short;
use calendar::items::put_item;
use calendar::parts::{PartSort, find, first_part, sort_of};
use calendar::texts::extended_moment;
use octets::{put, put_all, put_lower};

// Writes a value of a part between quotes.
fn put_quoted(out: &mut [u8], at: usize, sort: PartSort, s: &[u8]) -> usize
    ensures { Wrote (pen out.old at) (word_shown (part_sort_said sort) s.now) (pen out.new result) }
{
    let first = put(out, at, b'"');
    let close = put_item(out, first, sort, s);
    put(out, close, b'"')
}

// Writes a value of a part.
fn put_item_json(out: &mut [u8], at: usize, sort: PartSort, s: &[u8]) -> usize
    ensures { Wrote (pen out.old at) (item_json_shown (part_sort_said sort) s.now) (pen out.new result) }
{
    match sort {
        PartSort::Frequency => put_quoted(out, at, sort, s),
        PartSort::Moment => put_short(out, at, extended_moment(s)),
        PartSort::Count => put_item(out, at, sort, s),
        PartSort::Weekday => put_quoted(out, at, sort, s),
        PartSort::Ordinal => put_quoted(out, at, sort, s),
        PartSort::Numbers(_) => put_item(out, at, sort, s),
    }
}

// What stands between separators, and how each piece is written.
trait Piece {
    ghost shown: { Self → List ℕ → List ℕ };

    fn put(&self, out: &mut [u8], at: usize, s: &[u8]) -> usize
        ensures { Wrote (pen out.old at) (shown self.now s.now) (pen out.new result) };
}

// A value of a part of this sort.
impl Piece for PartSort {
    ghost shown = { λ k. item_json_shown (part_sort_said k) };

    fn put(&self, out: &mut [u8], at: usize, s: &[u8]) -> usize {
        put_item_json(out, at, *self, s)
    }
}

// A part.
#[derive(Clone, Copy)]
struct Part;

impl Piece for Part {
    ghost shown = { λ k. part_json_shown };

    fn put(&self, out: &mut [u8], at: usize, s: &[u8]) -> usize {
        put_part(out, at, s)
    }
}

// Writes the pieces between separators with a comma between them. They are found by hand: in a generic function the proof of a `for` over `split` does not close.
fn put_pieces<P: Piece>(out: &mut [u8], at: usize, piece: &P, sep: u8, s: &[u8]) -> usize
    ensures { Wrote (pen out.old at) (list_shown (P.shown piece.now) sep s.now) (pen out.new result) }
{
    let mut p = at;
    let mut i = 0;
    loop {
        let rest = &s[i..];
        let e = find(rest, sep);
        p = piece.put(out, p, &rest[0..e]);
        if e >= rest.len() {
            return p;
        }
        p = put(out, p, b',');
        i = i + e + 1;
    }
}

// Writes the values of a part: one plain, several as an array.
fn put_items(out: &mut [u8], at: usize, sort: PartSort, v: &[u8]) -> usize
    ensures { Wrote (pen out.old at) (items_shown (part_sort_said sort) v.now) (pen out.new result) }
{
    if find(v, b',') >= v.len() {
        return put_item_json(out, at, sort, v);
    }
    let first = put(out, at, b'[');
    let close = put_pieces(out, first, &sort, b',', v);
    put(out, close, b']')
}

// Writes a key in lowercase, and the colon behind it.
fn put_key(out: &mut [u8], at: usize, name: &[u8]) -> usize
    ensures { Wrote (pen out.old at) (key_shown name.now) (pen out.new result) }
{
    let first = put(out, at, b'"');
    let close = put_lower(out, first, name);
    put_all(out, close, b"\":")
}

// Writes a part as a member.
fn put_part(out: &mut [u8], at: usize, s: &[u8]) -> usize
    ensures { Wrote (pen out.old at) (part_json_shown s.now) (pen out.new result) }
{
    let part = first_part(s);
    let behind = put_key(out, at, &s[0..part.name]);
    put_items(out, behind, sort_of(part.key), &s[part.from..part.to])
}

// Writes the object of a rule.
pub(crate) fn put_recur(out: &mut [u8], at: usize, s: &[u8]) -> usize
    ensures { Wrote (pen out.old at) (recur_shown s.now) (pen out.new result) }
{
    let first = put(out, at, b'{');
    let close = put_pieces(out, first, &Part, b';', s);
    put(out, close, b'}')
}
