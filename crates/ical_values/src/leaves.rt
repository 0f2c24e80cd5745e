// Strings and numbers, tested and written: where the pen stands then; or none, where the octets are not what they should be.
ghost use Rattle.std.specs.Prelude.{◌∷◌};
ghost use Rattle.octets.specs.Classes.{upper};
ghost use Rattle.calendar.specs.Durations.{period_end_is, period_end_text};
ghost use Rattle.calendar.specs.Texts.{form_is, form_text};
ghost use Rattle.content.specs.Folding.{folding};
ghost use Rattle.json_text.specs.Tree.{num, str};
ghost use Rattle.values.specs.Coded.{sort_said};
ghost use Rattle.values.specs.Write.{value_is, value_text};
ghost use Rattle.ical_values.specs.Valued.{FoldedIf};

use crate::escaping::write_text;
use crate::writing::fold_basic;
use calendar::durations::{is_duration, is_forward};
use calendar::texts::{Form, is_extended};
use content::{Folder, fold_all, fold_octet, fold_upper};
use ical_recur::fold_integer;
use octets::all_plain;
use values::Sort;
use values::simple::{is_binary, is_float, is_integer};

// Writes octets as they stand, if they may stand.
fn fold_if(out: &mut [u8], p: Folder, stands: bool, s: &[u8]) -> Option<Folder>
    ensures { FoldedIf stands s.now (folding out.old p) out.new result }
{
    if stands {
        return Some(fold_all(out, p, s));
    }
    None
}

// Writes a text in the extended form in the basic form.
fn write_form(out: &mut [u8], p: Folder, form: Form, s: &[u8]) -> Option<Folder>
    ensures { FoldedIf (form_is form (upper s.now)) (form_text form (upper s.now)) (folding out.old p) out.new result }
{
    if is_extended(form, s) {
        return Some(fold_basic(out, p, form, s));
    }
    None
}

// Writes a solidus and a period's end: a date-time in the basic form, a duration without minus in uppercase.
pub(crate) fn write_end(out: &mut [u8], p: Folder, s: &[u8]) -> Option<Folder>
    ensures { FoldedIf (period_end_is (upper s.now)) (47 ∷ period_end_text (upper s.now)) (folding out.old p) out.new result }
{
    let q = fold_octet(out, p, b'/');
    if is_extended(Form::DateTime, s) {
        return Some(fold_basic(out, q, Form::DateTime, s));
    }
    if is_forward(s) {
        return Some(fold_upper(out, q, s));
    }
    None
}

// Writes a string, if the sort takes it: a duration in uppercase.
pub(crate) fn write_string(out: &mut [u8], p: Folder, sort: Sort, s: &[u8]) -> Option<Folder>
    ensures { FoldedIf (value_is (sort_said sort) (str s.now)) (value_text (sort_said sort) (str s.now)) (folding out.old p) out.new result }
{
    match sort {
        Sort::Plain => fold_if(out, p, all_plain(s), s),
        Sort::Binary => fold_if(out, p, is_binary(s), s),
        Sort::Date => write_form(out, p, Form::Date, s),
        Sort::DateTime => write_form(out, p, Form::DateTime, s),
        Sort::Duration => {
            if !is_duration(s) {
                return None;
            }
            Some(fold_upper(out, p, s))
        }
        Sort::Text => write_text(out, p, s),
        Sort::Time => write_form(out, p, Form::Time, s),
        Sort::UtcOffset => write_form(out, p, Form::Offset, s),
        _ => None,
    }
}

// Writes a number, if the sort takes it: a float as it stands, an integer's value.
pub(crate) fn write_number(out: &mut [u8], p: Folder, sort: Sort, s: &[u8]) -> Option<Folder>
    ensures { FoldedIf (value_is (sort_said sort) (num s.now)) (value_text (sort_said sort) (num s.now)) (folding out.old p) out.new result }
{
    match sort {
        Sort::Float => fold_if(out, p, is_float(s), s),
        Sort::Integer => {
            if !is_integer(s) {
                return None;
            }
            Some(fold_integer(out, p, s))
        }
        _ => None,
    }
}
