// The conversion to jCal: the tests in the order of their numbers, each over the whole text before the next.
ghost use Rattle.std.specs.Prelude.{◌≡◌, ◌≤◌, ◌<◌, length};
ghost use Rattle.octets.specs.Limits.{most_text};
ghost use Rattle.octets.specs.Answers.{outcome, answer};
ghost use Rattle.types.specs.Laid.{table_in, room_for_rows};
ghost use Rattle.content.specs.Lines.{lines_of};
ghost use Rattle.content.specs.Reading.{room_for_lines};
ghost use Rattle.conversion_theory.specs.Property.{read_property};
ghost use Rattle.conversion_theory.specs.ToJcal.{to_jcal};
ghost use Rattle.jcal.specs.Events.{events_in};
ghost use Rattle.jcal.specs.Stages.{properties_jcal, events_jcal, lines_jcal};

use crate::components::place_calendar;
use crate::nesting::test_structure;
use crate::paired::Calendar;
use crate::testing::test_properties;
use content::{ROOM_FOR_LINES, read_lines};
use octets::{MOST_TEXT, Refusal, refuse};
use types::{ROOM_FOR_ROWS, read_rows};

// The longest text for which a short buffer is lent, the quicker to zero.
const SHORT_TEXT: usize = 4096;

// A buffer of lines has room for a text and an LF more.
const ROOM_FOR_SHORT: usize = SHORT_TEXT + 1;

// Converts lines that pair: tests 7, 8 and 9. Lines that are not in order are tested before they are written.
fn convert_paired(calendar: Calendar, out: &mut [u8]) -> Result<usize, Refusal>
    ensures { outcome result out.new ≡ answer (properties_jcal (read_property (table_in calendar.entry.rows.now)) (events_in calendar.entry.lines.now)) out.old }
{
    if !calendar.in_order {
        if let Err(why) = test_properties(calendar) {
            return refuse(out, why);
        }
    }
    place_calendar(calendar, out)
}

// Converts clean content lines: tests 5 and 6.
fn convert_lines(lines: &[u8], rows: &[u8], out: &mut [u8]) -> Result<usize, Refusal>
    requires { length lines.now ≤ room_for_lines }
    ensures { outcome result out.new ≡ answer (events_jcal (read_property (table_in rows.now)) (events_in lines.now)) out.old }
{
    match test_structure(lines) {
        Ok(in_order) => {
            let calendar = Calendar {
                lines,
                rows,
                in_order,
            };
            convert_paired(calendar, out)
        }
        Err(why) => refuse(out, why),
    }
}

// Converts a text whose lines have room in the buffer: tests 3 and 4.
fn convert_text(text: &[u8], rows: &[u8], buf: &mut [u8], out: &mut [u8]) -> Result<usize, Refusal>
    requires text_in_bounds { length text.now < length buf.old }
    requires buf_len_bound { length buf.old ≤ room_for_lines }
    ensures { outcome result out.new ≡ answer (lines_jcal (read_property (table_in rows.now)) (lines_of text.now)) out.old }
{
    match read_lines(text, buf) {
        Ok(n) => convert_lines(&buf[0..n], rows, out),
        Err(why) => refuse(out, why),
    }
}

// Converts a text with the rows of a file, in buffers that have room for both: test 2.
fn convert(
    text: &[u8],
    hex: &[u8],
    rows: &mut [u8],
    buf: &mut [u8],
    out: &mut [u8],
) -> Result<usize, Refusal>
    requires room_for_rows_in_bounds { room_for_rows ≤ length rows.old }
    requires text_in_bounds { length text.now < length buf.old }
    requires buf_len_bound { length buf.old ≤ room_for_lines }
    requires text_len_bound { length text.now ≤ most_text }
    ensures { outcome result out.new ≡ answer (to_jcal hex.now text.now) out.old }
{
    match read_rows(hex, rows) {
        Ok(n) => convert_text(text, &rows[0..n], buf, out),
        Err(why) => refuse(out, why),
    }
}

// Converts a text, in a buffer of `ROOM` octets for its lines.
fn convert_in<const ROOM: usize>(text: &[u8], rows: &[u8], out: &mut [u8]) -> Result<usize, Refusal>
    requires text_in_bounds { length text.now < ROOM }
    requires room_bound { ROOM ≤ room_for_lines }
    requires text_len_bound { length text.now ≤ most_text }
    ensures { outcome result out.new ≡ answer (to_jcal rows.now text.now) out.old }
{
    let mut table = [0u8; ROOM_FOR_ROWS];
    let mut buf = [0u8; ROOM];
    convert(text, rows, &mut table, &mut buf, out)
}

// Turns an iCalendar text into jCal, by the default types and the rows of a rows.hex: test 1, and a buffer to match.
pub fn to_jcal(text: &[u8], rows: &[u8], out: &mut [u8]) -> Result<usize, Refusal>
    ensures { outcome result out.new ≡ answer (to_jcal rows.now text.now) out.old }
{
    if MOST_TEXT < text.len() {
        return refuse(out, Refusal::TextTooLong);
    }
    if text.len() <= SHORT_TEXT {
        return convert_in::<ROOM_FOR_SHORT>(text, rows, out);
    }
    convert_in::<ROOM_FOR_LINES>(text, rows, out)
}
