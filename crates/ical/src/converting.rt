// The conversion to iCalendar: the tests in the order of their numbers, then the lines.
ghost use Rattle.std.specs.Prelude.{◌≡◌, true, ◌≤◌, ◌<◌, ◌^◌, length};
ghost use Rattle.octets.specs.Answers.{answer, outcome};
ghost use Rattle.octets.specs.Limits.{most_text};
ghost use Rattle.octets.specs.Utf8.{utf8};
ghost use Rattle.types.specs.Laid.{table_in, room_for_rows};
ghost use Rattle.json_text.specs.Parse.{most_tape};
ghost use Rattle.conversion_theory.specs.ToIcal.{component_lines, to_ical};
ghost use Rattle.ical.specs.Converts.{Converts};
ghost use Rattle.ical.specs.Stages.{component_on, judged, tape_text, parsed_text};

use super::components::convert_component;
use ical_skeleton::shape_of;
use json_text::{JsonError, parse};
use octets::{MOST_LEVELS, MOST_TEXT, Refusal, finish, is_utf8, refuse};
use tape::is_sound;
use types::{ROOM_FOR_ROWS, read_rows};

// A tape that is long enough for a text of a limit's length; memory to work in is zeroed on each call, so a short text has less of it.
const SHORT_TEXT: usize = 8192;

const SHORT_TAPE: usize = 2 * SHORT_TEXT + 2;

const MIDDLE_TEXT: usize = 24576;

const MIDDLE_TAPE: usize = 2 * MIDDLE_TEXT + 2;

const MOST_TAPE: usize = 2 * MOST_TEXT + 2;

// Numbers 12 and 6, then what is on the tape.
fn convert_sound(
    t: &[u8],
    rows: &[u8],
    out: &mut [u8],
    rule: &mut [u8],
) -> Result<(usize, usize), Refusal>
    requires { length t.now ≤ length rule.old }
    ensures { Converts t.now 0 (judged (table_in rows.now) t.now) out.old 0 (component_lines (table_in rows.now) (component_on t.now)) out.new result }
{
    if !is_sound(t) {
        return Err(Refusal::NotJcal);
    }
    let n = shape_of(t).ok_or(Refusal::NotJcal)?;
    if MOST_LEVELS < n {
        return Err(Refusal::TooDeep);
    }
    convert_component(t, 0, MOST_LEVELS, rows, out, 0, rule)
}

// Converts what is on the tape.
fn convert_tape(t: &[u8], rows: &[u8], out: &mut [u8], rule: &mut [u8]) -> Result<usize, Refusal>
    requires { length t.now ≤ length rule.old }
    ensures { outcome result out.new ≡ answer (tape_text (table_in rows.now) t.now) out.old }
{
    match convert_sound(t, rows, out, rule) {
        Ok((_, n)) => finish(out, n),
        Err(w) => refuse(out, w),
    }
}

// Numbers 6 and 11, and then what is on the tape; `tape` and `rule` are memory to work in, `rule` for the text of a recurrence object or for a decoded value.
fn convert_text(
    text: &[u8],
    rows: &[u8],
    out: &mut [u8],
    tape: &mut [u8],
    rule: &mut [u8],
) -> Result<usize, Refusal>
    requires { (utf8 text.now ≡ true) × (most_tape (length text.now) ≤ length tape.old) × (length tape.old ≤ length rule.old) }
    ensures { outcome result out.new ≡ answer (parsed_text (table_in rows.now) text.now) out.old }
{
    let p = parse(text, tape);
    match p {
        Ok(n) => convert_tape(&tape[0..n], rows, out, rule),
        Err(why) => match why {
            JsonError::TooDeep => refuse(out, Refusal::TooDeep),
            JsonError::NotJson => refuse(out, Refusal::NotJson),
            JsonError::NoRoom => refuse(out, Refusal::NoRoom),
        },
    }
}

// Converts a text, with room for `N` octets of tape.
fn convert_in<const N: usize>(text: &[u8], rows: &[u8], out: &mut [u8]) -> Result<usize, Refusal>
    requires { (utf8 text.now ≡ true) × (most_tape (length text.now) ≤ N) × (N < 2 ^ 63) }
    ensures { outcome result out.new ≡ answer (parsed_text (table_in rows.now) text.now) out.old }
{
    let mut tape = [0u8; N];
    let mut rule = [0u8; N];
    convert_text(text, rows, out, &mut tape, &mut rule)
}

// Numbers 2 and 3, and then the text, in memory to match; the rows are laid into `table`.
fn convert(text: &[u8], hex: &[u8], out: &mut [u8], table: &mut [u8]) -> Result<usize, Refusal>
    requires { (length text.now ≤ most_text) × (room_for_rows ≤ length table.old) }
    ensures { outcome result out.new ≡ answer (to_ical hex.now text.now) out.old }
{
    let r = read_rows(hex, table);
    match r {
        Err(_) => refuse(out, Refusal::RowsMalformed),
        Ok(n) => {
            if !is_utf8(text) {
                return refuse(out, Refusal::NotClean);
            }
            let laid = &table[0..n];
            if MIDDLE_TEXT < text.len() {
                return convert_in::<MOST_TAPE>(text, laid, out);
            }
            if SHORT_TEXT < text.len() {
                return convert_in::<MIDDLE_TAPE>(text, laid, out);
            }
            convert_in::<SHORT_TAPE>(text, laid, out)
        }
    }
}

// Converts jCal to iCalendar, with the added rows of rows.hex.
pub fn to_ical(text: &[u8], rows: &[u8], out: &mut [u8]) -> Result<usize, Refusal>
    ensures { outcome result out.new ≡ answer (to_ical rows.now text.now) out.old }
{
    if MOST_TEXT < text.len() {
        return refuse(out, Refusal::TextTooLong);
    }
    let mut table = [0u8; ROOM_FOR_ROWS];
    convert(text, rows, out, &mut table)
}
