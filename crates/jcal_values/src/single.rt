// One value by itself, by its sort, tested and written as jCal has it.
ghost use Rattle.octets.specs.Pen.{pen};
ghost use Rattle.json_text.specs.Print.{print};
ghost use Rattle.values.specs.Coded.{sort_said};
ghost use Rattle.jcal_values.specs.Parts.{read_alone};
ghost use Rattle.jcal_texts.specs.Trying.{Tried};

use crate::forms::{put_period, put_tested_form};
use crate::recur::put_recur;
use calendar::durations::is_duration;
use calendar::rules::is_rule;
use calendar::texts::Form;
use jcal_texts::{put_tested_plain, put_tested_status, put_upper_string};
use json_text::put_string;
use octets::put_integer_text;
use values::Sort;
use values::simple::{
    is_binary, is_boolean, is_float, is_geo, is_integer, is_period, put_boolean, put_float, put_geo,
};

// Tests the value and writes it. Most are written whether they stand or not: what is written of a refused one is zeroed with the buffer.
pub(crate) fn put_tested_one(out: &mut [u8], at: usize, sort: Sort, s: &[u8]) -> Option<usize>
    ensures { Tried (read_alone (sort_said sort) s.now) print (pen out.old at) out.new result }
{
    match sort {
        Sort::Plain => put_tested_plain(out, at, s),
        Sort::Binary => is_binary(s).then_some(put_string(out, at, s)),
        Sort::Boolean => is_boolean(s).then_some(put_boolean(out, at, s)),
        Sort::Date => put_tested_form(out, at, Form::Date, s),
        Sort::DateTime => put_tested_form(out, at, Form::DateTime, s),
        Sort::Duration => is_duration(s).then_some(put_upper_string(out, at, s)),
        Sort::Float => is_float(s).then_some(put_float(out, at, s)),
        Sort::Geo => is_geo(s).then_some(put_geo(out, at, s)),
        Sort::Integer => is_integer(s).then_some(put_integer_text(out, at, s)),
        Sort::Period => is_period(s).then_some(put_period(out, at, s)),
        Sort::Recur => is_rule(s).then_some(put_recur(out, at, s)),
        Sort::Text => None,
        Sort::Status => put_tested_status(out, at, s),
        Sort::Time => put_tested_form(out, at, Form::Time, s),
        Sort::UtcOffset => put_tested_form(out, at, Form::Offset, s),
    }
}
