// The lines of a text: unfolded into a buffer, each ended by LF alone, and found there again.
ghost use Rattle.std.specs.Prelude.{◌≡◌, ◌+◌, length, get_or, drop};
ghost use Rattle.octets.specs.Basics.{◌or◌, all, filled};
ghost use Rattle.octets.specs.Utf8.{clean};
ghost use Rattle.octets.specs.Pen.{pen, Wrote};
ghost use Rattle.content.specs.Lines.{is_blank, is_lf, without_cr, cut_lines, lines_of};
ghost use Rattle.octets.specs.Search.{until};
ghost use Rattle.content.specs.Buffer.{laid_out};

use octets::{all_text, find, is_utf8, peek, put, put_all};

// The place of the LF that ends the line at `at`, or the end of the buffer.
pub fn line_end(buf: &[u8], at: usize) -> usize
    ensures { result ≡ at + length (until is_lf (drop at buf.now)) }
{
    find(buf, at, b'\n')
}

// The octets of a line without the CR before its LF, which belongs to the ending.
fn without_cr(run: &[u8]) -> &[u8]
    ensures { result.now ≡ without_cr run.now }
{
    match run {
        [front @ .., b'\r'] => front,
        _ => run,
    }
}

// Whether the octet at `i` is a space or a tab.
fn blank_at(text: &[u8], i: usize) -> bool
    ensures { result ≡ is_blank (get_or text.now i 0) }
{
    let c = peek(text, i);
    c == b' ' || c == b'\t'
}

// Whether a line is begun, where a run is added.
fn begun_after(begun: bool, run: &[u8]) -> bool
    ensures { result ≡ (begun or filled run.now) }
{
    begun || !run.is_empty()
}

// Lays the lines of a text into the buffer, unfolded, each ended by LF alone; answers where they end. What stands behind an LF says whether it ends its line:
// the pieces of a `split` do not show it.
pub(crate) fn unfold(text: &[u8], out: &mut [u8]) -> usize
    ensures { Wrote (pen out.old 0) (laid_out (lines_of text.now)) (pen out.new result) }
{
    let mut i = 0;
    let mut at = 0;
    let mut begun = false;
    while i < text.len() {
        let e = line_end(text, i);
        if e >= text.len() {
            let a = put_all(out, at, &text[i..e]);
            return put(out, a, b'\n');
        }
        let run = without_cr(&text[i..e]);
        let a = put_all(out, at, run);
        if blank_at(text, e + 1) {
            begun = begun_after(begun, run);
            at = a;
            i = e + 2;
        } else {
            begun = false;
            at = put(out, a, b'\n');
            i = e + 1;
        }
    }
    if begun {
        return put(out, at, b'\n');
    }
    at
}

// Test 3 of every line in a buffer: UTF-8 without control characters but tab.
pub(crate) fn all_clean(buf: &[u8]) -> bool
    ensures { result ≡ all clean (cut_lines buf.now) }
{
    if !is_utf8(buf) {
        return false;
    }
    all_text(buf)
}
