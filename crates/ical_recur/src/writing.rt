// A recurrence rule through the folding pen: its parts in the order received, in uppercase, numbers without plus and leading zeros.
ghost use Rattle.std.specs.Prelude.{◌≤◌, [], length};
ghost use Rattle.octets.specs.Decimal.{minus_if, integer_text};
ghost use Rattle.calendar.specs.Recurrence.{ordinal};
ghost use Rattle.calendar.specs.Walk.{part_said, part_sort_said, item_shown, values_shown, part_shown, rule_shown};
ghost use Rattle.content.specs.Folding.{folding, Folded};
ghost use Rattle.ical_recur.specs.Wording.{mark_before};

use calendar::parts::{PartAt, PartSort, first_part, sort_of};
use content::{Folder, fold_all, fold_octet, fold_upper};
use octets::{is_negative, leading_zeros, sign_length};

// Writes a minus, if there is to be one.
fn fold_minus(out: &mut [u8], p: Folder, negative: bool) -> Folder
    ensures { Folded (folding out.old p) (minus_if negative []) (folding out.new result) }
{
    if negative {
        return fold_octet(out, p, b'-');
    }
    p
}

// Writes an integer's value.
pub fn fold_integer(out: &mut [u8], p: Folder, s: &[u8]) -> Folder
    ensures { Folded (folding out.old p) (integer_text s.now) (folding out.new result) }
{
    let q = fold_minus(out, p, is_negative(s));
    let sign = sign_length(s);
    let zeros = leading_zeros(&s[sign..]);
    let first = sign + zeros;
    fold_all(out, q, &s[first..])
}

// Writes a weekday with its number; the weekday has two letters.
fn fold_ordinal(out: &mut [u8], p: Folder, s: &[u8]) -> Folder
    ensures { Folded (folding out.old p) (item_shown ordinal s.now) (folding out.new result) }
{
    if s.len() < 2 {
        return fold_upper(out, p, s);
    }
    let from = s.len() - 2;
    let q = fold_integer(out, p, &s[0..from]);
    fold_upper(out, q, &s[from..])
}

// Writes one value of a part.
fn fold_item(out: &mut [u8], p: Folder, sort: PartSort, s: &[u8]) -> Folder
    ensures { Folded (folding out.old p) (item_shown (part_sort_said sort) s.now) (folding out.new result) }
{
    match sort {
        PartSort::Frequency | PartSort::Moment | PartSort::Weekday => fold_upper(out, p, s),
        PartSort::Count | PartSort::Numbers(_) => fold_integer(out, p, s),
        PartSort::Ordinal => fold_ordinal(out, p, s),
    }
}

// Writes a comma, but in front of the first value of all.
fn fold_comma(out: &mut [u8], p: Folder, place: usize) -> Folder
    ensures { Folded (folding out.old p) (mark_before 44 place) (folding out.new result) }
{
    if place == 0 {
        p
    } else {
        fold_octet(out, p, b',')
    }
}

// Writes the values of a part, with commas between them.
fn fold_values(out: &mut [u8], p: Folder, sort: PartSort, v: &[u8]) -> Folder
    ensures { Folded (folding out.old p) (values_shown (part_sort_said sort) v.now) (folding out.new result) }
{
    let mut q = p;
    for (n, item) in v.split(|&c| c == b',').enumerate() {
        let behind = fold_comma(out, q, n);
        q = fold_item(out, behind, sort, item);
    }
    q
}

// Writes the part that stands at the given places of a text.
fn fold_part(out: &mut [u8], p: Folder, part: PartAt, s: &[u8]) -> Folder
    requires { (part.name ≤ length s.now) × (part.from ≤ part.to) × (part.to ≤ length s.now) }
    ensures { Folded (folding out.old p) (part_shown (part_said part) s.now) (folding out.new result) }
{
    let named = fold_upper(out, p, &s[0..part.name]);
    let behind = fold_octet(out, named, b'=');
    fold_values(out, behind, sort_of(part.key), &s[part.from..part.to])
}

// Writes a rule, with semicolons between its parts. A part is written in two places, which keeps it from being inlined into the way of every property;
// a `for` would write it in one.
pub(crate) fn fold_rule(out: &mut [u8], p: Folder, s: &[u8]) -> Folder
    ensures { Folded (folding out.old p) (rule_shown s.now) (folding out.new result) }
{
    let mut q = p;
    let mut from = 0;
    loop {
        let rest = &s[from..];
        let part = first_part(rest);
        let end = part.to;
        if end >= rest.len() {
            return fold_part(out, q, part, rest);
        }
        let f = fold_part(out, q, part, rest);
        q = fold_octet(out, f, b';');
        from = from + end + 1;
    }
}
