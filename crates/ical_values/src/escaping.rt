// Text values tested and written through the folding pen: backslash, semicolon, comma and newline are escaped, octets that stand as they are go run
// by run, and control characters but tab and newline are refused.
ghost use Rattle.std.specs.Prelude.{[], ◌∷◌};
ghost use Rattle.octets.specs.Classes.{text_octet};
ghost use Rattle.content.specs.Folding.{folding, Folded};
ghost use Rattle.values.specs.Texts.{escaped_octet, text_is, text_text};
ghost use Rattle.ical_values.specs.Valued.{FoldedIf};

use content::{Folder, fold_all, fold_octet};
use octets::{Class, is_plain_octet, long_run_end};

// Writes a backslash and an octet.
fn fold_pair(out: &mut [u8], p: Folder, c: u8) -> Folder
    ensures { Folded (folding out.old p) (92 ∷ c ∷ []) (folding out.new result) }
{
    let q = fold_octet(out, p, b'\\');
    fold_octet(out, q, c)
}

// Writes an octet of a text, escaped where it must be, and tells where the pen stands; none, where the octet is none of a text.
fn fold_escaped(out: &mut [u8], p: Folder, c: u8) -> Option<Folder>
    ensures { FoldedIf (text_octet c) (escaped_octet c) (folding out.old p) out.new result }
{
    match c {
        b'\\' | b';' | b',' => Some(fold_pair(out, p, c)),
        b'\n' => Some(fold_pair(out, p, b'n')),
        _ => {
            if is_plain_octet(c) {
                return Some(fold_octet(out, p, c));
            }
            None
        }
    }
}

// Writes a text.
pub(crate) fn write_text(out: &mut [u8], p: Folder, s: &[u8]) -> Option<Folder>
    ensures { FoldedIf (text_is s.now) (text_text s.now) (folding out.old p) out.new result }
{
    let mut q = p;
    let mut i = 0;
    loop {
        let end = long_run_end(s, i, Class::TextBare);
        q = fold_all(out, q, &s[i..end]);
        if end == s.len() {
            return Some(q);
        }
        q = fold_escaped(out, q, s[end])?;
        i = end + 1;
    }
}
