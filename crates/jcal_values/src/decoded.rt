// Values that are sent as base64: decoded into local memory, they are tested and written as others are.
ghost use Rattle.std.specs.Prelude.{true, ◌≤◌, length};
ghost use Rattle.octets.specs.Pen.{pen};
ghost use Rattle.content.specs.Reading.{room_for_lines};
ghost use Rattle.values.specs.Base64.{text_sent};
ghost use Rattle.values.specs.Coded.{sort_said};
ghost use Rattle.jcal_values.specs.Attempts.{AttemptedIn, text_decoded};

use crate::raw::put_tested;
use content::ROOM_FOR_LINES;
use values::Sort;
use values::base64::decode;

// The longest value for which a short array is lent, the quicker to zero. It is less than a page, which the stack of a caller has at hand.
const SHORT_VALUE: usize = 2048;

// Decodes a value into `work`, or into more memory where that has no room for it, tests its values, and writes each with a comma before it. It lends that
// memory to a call of itself: a recursion is not inlined, so the memory does not stand on the stack of those who call for other values.
fn put_decoded_in(
    out: &mut [u8],
    at: usize,
    sort: Sort,
    many: bool,
    raw: &[u8],
    work: &mut [u8],
) -> Option<usize>
    requires { length raw.now ≤ room_for_lines }
    ensures { AttemptedIn many (sort_said sort) (text_sent true raw.now) (pen out.old at) out.new result }
{
    if work.len() < raw.len() {
        let mut more = [0u8; ROOM_FOR_LINES];
        return put_decoded_in(out, at, sort, many, raw, &mut more);
    }
    let n = decode(raw, work)?;
    put_tested(out, at, sort, many, &work[..n])
}

// Tests the values of a value that is sent as base64, and writes each with a comma before it. One that a buffer of lines has no room for does not stand.
pub fn put_decoded(out: &mut [u8], at: usize, sort: Sort, many: bool, raw: &[u8]) -> Option<usize>
    ensures { AttemptedIn many (sort_said sort) (text_decoded raw.now) (pen out.old at) out.new result }
{
    if ROOM_FOR_LINES < raw.len() {
        return None;
    }
    let mut work = [0u8; SHORT_VALUE];
    put_decoded_in(out, at, sort, many, raw, &mut work)
}
