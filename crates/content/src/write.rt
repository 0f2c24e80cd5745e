// Pieces of a content line through the folding pen: the head of a parameter, and its values.
ghost use Rattle.std.specs.Prelude.{◌≡◌, not, ◌++◌, ◌+◌, length, drop};
ghost use Rattle.octets.specs.Basics.{octets, any};
ghost use Rattle.octets.specs.Classes.{upper};
ghost use Rattle.octets.specs.Groups.{caret_free};
ghost use Rattle.octets.specs.Search.{until};
ghost use Rattle.content.specs.Carets.{encoded_octet, encoded};
ghost use Rattle.content.specs.Write.{asks_quotes, param_value_text};
ghost use Rattle.content.specs.Folding.{folding, Folded};

use crate::fold::{Folder, fold_all, fold_octet, fold_upper};
use octets::{Class, run_end};

// Whether an octet asks for quotes around its value.
fn asks_quotes(c: u8) -> bool
    ensures { result ≡ asks_quotes c }
{
    if c == b':' {
        return true;
    }
    if c == b';' {
        return true;
    }
    c == b','
}

// Whether a value is written in quotes.
fn is_quoted(v: &[u8]) -> bool
    ensures { result ≡ any asks_quotes v.now }
{
    for &c in v {
        if asks_quotes(c) {
            return true;
        }
    }
    false
}

// The end of the octets from `at` on that no caret encodes. It stands by itself so that the search is compiled for this class alone.
fn plain_end(v: &[u8], at: usize) -> usize
    ensures { result ≡ at + length (until (λ c. not (caret_free c)) (drop at v.now)) }
{
    run_end(v, at, Class::CaretFree)
}

// Writes an octet, a caret encoding it where it must.
fn fold_encoded_octet(out: &mut [u8], p: Folder, c: u8) -> Folder
    ensures { Folded (folding out.old p) (encoded_octet c) (folding out.new result) }
{
    match c {
        b'^' => fold_all(out, p, b"^^"),
        b'"' => fold_all(out, p, b"^'"),
        b'\n' => fold_all(out, p, b"^n"),
        _ => fold_octet(out, p, c),
    }
}

// Writes a value with carets encoded; what needs none is written whole.
fn fold_encoded(out: &mut [u8], p: Folder, v: &[u8]) -> Folder
    ensures { Folded (folding out.old p) (encoded v.now) (folding out.new result) }
{
    let mut q = p;
    let mut i = 0;
    loop {
        let end = plain_end(v, i);
        q = fold_all(out, q, &v[i..end]);
        if end >= v.len() {
            return q;
        }
        q = fold_encoded_octet(out, q, v[end]);
        i = end + 1;
    }
}

// Writes the head of a parameter, ;NAME=
pub fn begin_param(out: &mut [u8], p: Folder, name: &[u8]) -> Folder
    ensures { Folded (folding out.old p) (octets ";" ++ upper name.now ++ octets "=") (folding out.new result) }
{
    let a = fold_octet(out, p, b';');
    let b = fold_upper(out, a, name);
    fold_octet(out, b, b'=')
}

// Writes the first value of a parameter; one that needs neither quotes nor carets is written whole.
pub fn write_param_value(out: &mut [u8], p: Folder, v: &[u8]) -> Folder
    ensures { Folded (folding out.old p) (param_value_text v.now) (folding out.new result) }
{
    if is_quoted(v) {
        let a = fold_octet(out, p, b'"');
        let b = fold_encoded(out, a, v);
        return fold_octet(out, b, b'"');
    }
    if plain_end(v, 0) == v.len() {
        return fold_all(out, p, v);
    }
    fold_encoded(out, p, v)
}

// Writes a further value of a parameter.
pub fn next_param_value(out: &mut [u8], p: Folder, v: &[u8]) -> Folder
    ensures { Folded (folding out.old p) (octets "," ++ param_value_text v.now) (folding out.new result) }
{
    let a = fold_octet(out, p, b',');
    write_param_value(out, a, v)
}
