// Dates, times, offsets and periods, written for jCal.
ghost use Rattle.octets.specs.Classes.{upper};
ghost use Rattle.octets.specs.Optional.{map?, said};
ghost use Rattle.octets.specs.Pen.{pen, Wrote};
ghost use Rattle.calendar.specs.Texts.{form_of};
ghost use Rattle.json_text.specs.Tree.{str};
ghost use Rattle.json_text.specs.Print.{print};
ghost use Rattle.values.specs.Shown.{string_shown, end_shown, period_shown};
ghost use Rattle.jcal_texts.specs.Trying.{Tried};

use calendar::parts::find;
use calendar::texts::{Form, ShortText, extended, is_basic};
use jcal_texts::put_upper_string;
use json_text::put_string;
use octets::{put, put_all};
use values::simple::past;

// Writes a short text as a string; where there is none, an empty one.
pub(crate) fn put_short(out: &mut [u8], at: usize, t: Option<ShortText>) -> usize
    ensures { Wrote (pen out.old at) (string_shown (said t)) (pen out.new result) }
{
    match t {
        Some(text) => put_string(out, at, text.as_slice()),
        None => put_string(out, at, b""),
    }
}

// Writes a text of a fixed form in the extended form.
pub(crate) fn put_form(out: &mut [u8], at: usize, form: Form, s: &[u8]) -> usize
    ensures { Wrote (pen out.old at) (string_shown (form_of form (upper s.now))) (pen out.new result) }
{
    put_short(out, at, extended(form, s))
}

// Tests a text of a fixed form, and writes it in the extended form, which has no octet to escape.
pub(crate) fn put_tested_form(out: &mut [u8], at: usize, form: Form, s: &[u8]) -> Option<usize>
    ensures { Tried (map? str (form_of form (upper s.now))) print (pen out.old at) out.new result }
{
    let Some(t) = extended(form, s) else {
        return None;
    };
    let first = put(out, at, b'"');
    let close = put_all(out, first, t.as_slice());
    Some(put(out, close, b'"'))
}

// Writes the end of a period.
fn put_end(out: &mut [u8], at: usize, s: &[u8]) -> usize
    ensures { Wrote (pen out.old at) (end_shown s.now) (pen out.new result) }
{
    if is_basic(Form::DateTime, s) {
        return put_form(out, at, Form::DateTime, s);
    }
    put_upper_string(out, at, s)
}

// Writes an array of a start and an end.
pub(crate) fn put_period(out: &mut [u8], at: usize, s: &[u8]) -> usize
    ensures { Wrote (pen out.old at) (period_shown s.now) (pen out.new result) }
{
    let e = find(s, b'/');
    let from = past(s, e);
    let first = put(out, at, b'[');
    let comma = put_form(out, first, Form::DateTime, &s[0..e]);
    let second = put(out, comma, b',');
    let close = put_end(out, second, &s[from..]);
    put(out, close, b']')
}
