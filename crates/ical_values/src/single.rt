// One value, tested and written: a string, a number, a boolean or a period.
ghost use Rattle.std.specs.Prelude.{◌≡◌, true};
ghost use Rattle.content.specs.Folding.{folding};
ghost use Rattle.values.specs.Sorts.{boolean, period};
ghost use Rattle.values.specs.Coded.{sort_said};
ghost use Rattle.ical_values.specs.Parts.{simple};
ghost use Rattle.ical_values.specs.Valued.{ValueAs};

use crate::leaves::{write_end, write_number, write_string};
use content::{Folder, fold_all};
use tape::{ARRAY, END, FALSE, NUMBER, STRING, TRUE, after, behind, tag, text_at};
use values::Sort;

// The string or the number at `at`.
fn leaf_at(out: &mut [u8], p: Folder, t: &[u8], at: usize, sort: Sort) -> Option<(usize, Folder)>
    requires { (simple (sort_said sort) ≡ true) × ((sort ≡ Sort.Boolean) → ⊥) × ((sort ≡ Sort.Period) → ⊥) }
    ensures { ValueAs (sort_said sort) t.now at (folding out.old p) out.new result }
{
    let s = text_at(t, at);
    match tag(t, at) {
        STRING => Some((s.next, write_string(out, p, sort, &t[s.from..s.to])?)),
        NUMBER => Some((s.next, write_number(out, p, sort, &t[s.from..s.to])?)),
        _ => None,
    }
}

// The boolean at `at`.
fn boolean_at(out: &mut [u8], p: Folder, t: &[u8], at: usize) -> Option<(usize, Folder)>
    ensures { ValueAs boolean t.now at (folding out.old p) out.new result }
{
    let e = behind(t, at);
    match tag(t, at) {
        FALSE => Some((e, fold_all(out, p, b"FALSE"))),
        TRUE => Some((e, fold_all(out, p, b"TRUE"))),
        _ => None,
    }
}

// The period at `at`: an array of a start, and an end or a duration.
fn period_at(out: &mut [u8], p: Folder, t: &[u8], at: usize) -> Option<(usize, Folder)>
    ensures { ValueAs period t.now at (folding out.old p) out.new result }
{
    if tag(t, at) != ARRAY {
        return None;
    }
    let a = after(t, at);
    if tag(t, a) != STRING {
        return None;
    }
    let (b, q) = leaf_at(out, p, t, a, Sort::DateTime)?;
    if tag(t, b) != STRING {
        return None;
    }
    let s = text_at(t, b);
    if tag(t, s.next) != END {
        return None;
    }
    let e = after(t, s.next);
    Some((e, write_end(out, q, &t[s.from..s.to])?))
}

// Writes the value at `at`, if the sort takes it, and tells the place behind it and where the pen stands.
pub(crate) fn write_one(
    out: &mut [u8],
    p: Folder,
    t: &[u8],
    at: usize,
    sort: Sort,
) -> Option<(usize, Folder)>
    requires { simple (sort_said sort) ≡ true }
    ensures { ValueAs (sort_said sort) t.now at (folding out.old p) out.new result }
{
    match sort {
        Sort::Boolean => boolean_at(out, p, t, at),
        Sort::Period => period_at(out, p, t, at),
        _ => leaf_at(out, p, t, at, sort),
    }
}
