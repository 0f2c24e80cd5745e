// The library for other languages: the jobs on octet slices, each of which passes as a pointer and a length.
#![tactic(auto)]

ghost use Rattle.octets.specs.Answers.{answer};
ghost use Rattle.octets.specs.Pen.{pen, Wrote};
ghost use Rattle.stop_list.specs.Stops.{list_of};
ghost use Rattle.stops_page.specs.Printing.{answer_shown, printed};
ghost use Rattle.conversion_theory.specs.ToJcal.{to_jcal};
ghost use Rattle.conversion_theory.specs.ToIcal.{to_ical};
ghost use Rattle.ffi.specs.Words.{Worded, Returns};

use octets::Refusal;

// A conversion's answer as a word.
fn word_of(c: Result<usize, Refusal>) -> usize
    ensures { Worded c result }
{
    match c {
        Ok(n) => n,
        Err(why) => usize::MAX - why.number() as usize,
    }
}

// Turns an iCalendar text into jCal, with the content of a rows.hex.
#[unsafe(no_mangle)]
pub extern "C" fn putrenski_to_jcal(text: &[u8], rows: &[u8], out: &mut [u8]) -> usize
    ensures { Returns (answer (to_jcal rows.now text.now) out.old) result out.new }
{
    word_of(jcal::to_jcal(text, rows, out))
}

// Turns jCal into iCalendar, with the content of a rows.hex.
#[unsafe(no_mangle)]
pub extern "C" fn putrenski_to_ical(text: &[u8], rows: &[u8], out: &mut [u8]) -> usize
    ensures { Returns (answer (to_ical rows.now text.now) out.old) result out.new }
{
    word_of(ical::to_ical(text, rows, out))
}

// Writes what `stops` prints for a start, a rule and the most stops, a line each; answers its length, or one more than the buffer's where it has no room.
#[unsafe(no_mangle)]
pub extern "C" fn putrenski_stops(text: &[u8], out: &mut [u8]) -> usize
    ensures { Wrote (pen out.old 0) (printed text.now) (pen out.new result) }
{
    stops_page::print_page(out, text)
}

// Writes the stops of a start and a rule, not more than `most`, with their count in front; answers as `putrenski_stops` does.
#[unsafe(no_mangle)]
pub extern "C" fn putrenski_list(start: &[u8], rule: &[u8], most: usize, out: &mut [u8]) -> usize
    ensures { Wrote (pen out.old 0) (answer_shown (list_of start.now rule.now most)) (pen out.new result) }
{
    stops_page::print_list(out, start, rule, most)
}
