// The values of a property, tested and written.
ghost use Rattle.std.specs.Prelude.{◌≡◌, true, false};
ghost use Rattle.octets.specs.Basics.{◌and◌};
ghost use Rattle.content.specs.Folding.{folding};
ghost use Rattle.tape.specs.Decode.{tag_at};
ghost use Rattle.json_text.specs.Tape.{tag_end};
ghost use Rattle.values.specs.Sorts.{sort_splits};
ghost use Rattle.values.specs.Write.{value_is, value_text};
ghost use Rattle.values.specs.Coded.{sort_said};
ghost use Rattle.ical_recur.specs.Room.{has_room};
ghost use Rattle.ical_values.specs.Parts.{simple, parts_are, fields_text};
ghost use Rattle.ical_values.specs.Valued.{ListedAs, ValuedAs};

use crate::single::write_one;
use content::{Folder, fold_octet};
use ical_recur::write_rule;
use tape::{ARRAY, END, after, behind, count, tag};
use values::Sort;

// Writes one or more values from `at` to the end of their group, with `sep` between them.
fn write_some(
    out: &mut [u8],
    p: Folder,
    t: &[u8],
    at: usize,
    sort: Sort,
    sep: u8,
    several: bool,
) -> Option<(usize, Folder)>
    requires { ((tag_at t.now at ≡ tag_end) → ⊥) × (simple (sort_said sort) ≡ true) }
    ensures { ListedAs sep several (value_is (sort_said sort)) (value_text (sort_said sort)) t.now at (folding out.old p) out.new result }
{
    let mut q = p;
    let mut i = at;
    loop {
        let (e, f) = write_one(out, q, t, i, sort)?;
        if tag(t, e) == END {
            return Some((after(t, e), f));
        }
        if !several {
            return None;
        }
        q = fold_octet(out, f, sep);
        i = e;
    }
}

// Writes the array that stands alone in the group at `at`: two values of the sort or more, but fewer than `limit`, with semicolons between them.
fn write_parts(
    out: &mut [u8],
    p: Folder,
    t: &[u8],
    at: usize,
    sort: Sort,
    limit: usize,
) -> Option<(usize, Folder)>
    requires { simple (sort_said sort) ≡ true }
    ensures { ListedAs 44 false (parts_are limit (sort_said sort)) (fields_text (sort_said sort)) t.now at (folding out.old p) out.new result }
{
    if tag(t, at) != ARRAY {
        return None;
    }
    let a = after(t, at);
    let n = count(t, a, limit);
    if n < 2 {
        return None;
    }
    if n == limit {
        return None;
    }
    let (e, q) = write_some(out, p, t, a, sort, b';', true)?;
    if tag(t, e) != END {
        return None;
    }
    Some((after(t, e), q))
}

// There may be several values, or none.
fn may_be_several(many: bool, sort: Sort) -> bool
    ensures { result ≡ (many and sort_splits (sort_said sort)) }
{
    many && sort.splits()
}

// Writes the values of any sort but recurrence rules.
fn write_values(
    out: &mut [u8],
    p: Folder,
    t: &[u8],
    at: usize,
    sort: Sort,
    many: bool,
) -> Option<(usize, Folder)>
    requires { (sort ≡ Sort.Recur) → ⊥ }
    ensures { ValuedAs true many (sort_said sort) t.now at (folding out.old p) out.new result }
{
    match sort {
        Sort::Geo => write_parts(out, p, t, at, Sort::Float, 3),
        Sort::Status => write_parts(out, p, t, at, Sort::Text, 4),
        _ => {
            let several = may_be_several(many, sort);
            if tag(t, at) != END {
                return write_some(out, p, t, at, sort, b',', several);
            }
            if several {
                return Some((after(t, at), p));
            }
            None
        }
    }
}

// Writes the values from `at` to the end of their group, if the sort takes them, and tells the place behind that end and where the pen stands; several
// of them only where the name may have many and the sort splits. Else `out` is as before in front of the pen, and the code's choice behind. The text of
// a recurrence object is laid into `rule`, which is as long as the tape, or the values are invalid; it keeps its length, and what is left in it is the
// code's choice.
pub fn write_tested(
    out: &mut [u8],
    p: Folder,
    t: &[u8],
    at: usize,
    sort: Sort,
    many: bool,
    rule: &mut [u8],
) -> Option<(usize, Folder)>
    ensures { ValuedAs (has_room t.now rule.old) many (sort_said sort) t.now at (folding out.old p) out.new result }
{
    if rule.len() < t.len() {
        return None;
    }
    let Sort::Recur = sort else {
        return write_values(out, p, t, at, sort, many);
    };
    let e = behind(t, at);
    if tag(t, e) != END {
        return None;
    }
    let q = write_rule(out, p, t, at, rule)?;
    Some((after(t, e), q))
}
