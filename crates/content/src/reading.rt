// A text's lines, laid into a buffer and tested.
ghost use Rattle.content.specs.Reading.{ReadLines};

use crate::form::all_formed;
use crate::lines::{all_clean, unfold};
use octets::Refusal;

// Unfolds a text into the buffer and tests its lines; answers where they end, or why there are none. An octet more than the text has is room enough.
pub fn read_lines(text: &[u8], buf: &mut [u8]) -> Result<usize, Refusal>
    ensures { ReadLines text.now buf.old buf.new result }
{
    let n = unfold(text, buf);
    if buf.len() < n {
        return Err(Refusal::NoRoom);
    }
    let lines = &buf[..n];
    if !all_clean(lines) {
        return Err(Refusal::NotClean);
    }
    if !all_formed(lines) {
        return Err(Refusal::NotContentLine);
    }
    Ok(n)
}
