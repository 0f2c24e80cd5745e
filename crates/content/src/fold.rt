// The folding pen: the octets of a line into a lent buffer, folded as they are written.
ghost use Rattle.std.specs.Prelude.{◌≡◌, [], ◌∷◌, ◌+◌, ◌-◌, ◌≤◌, ◌<◌, length};
ghost use Rattle.octets.specs.Basics.{octets};
ghost use Rattle.octets.specs.Classes.{upper};
ghost use Rattle.octets.specs.Limits.{most_columns};
ghost use Rattle.octets.specs.Pen.{pen, Wrote};
ghost use Rattle.content.specs.Fold.{width, breaks};
ghost use Rattle.content.specs.Folding.{folding, Folded, cased_octet, cased};

use octets::{MOST_COLUMNS, put, put_all, put_upper, upper_octet};

// Where the next octet goes: its place in the buffer and its column in the line. A line begins at column 0.
#[derive(Clone, Copy)]
pub struct Folder {
    pub at: usize,
    pub column: usize,
}

// A character that begins before this column ends in its line, whatever its width.
const SAFE_COLUMNS: usize = MOST_COLUMNS - 3;

// The octets of the character that c begins, or 0, as the definition `width` counts them.
fn width(c: u8) -> usize
    ensures { result ≡ width c }
{
    if c < 128 {
        return 1;
    }
    if c < 192 {
        return 0;
    }
    if c < 224 {
        return 2;
    }
    if c < 240 { 3 } else { 4 }
}

// Whether the line is folded before c.
fn breaks(column: usize, c: u8) -> bool
    ensures { result ≡ breaks column c }
{
    let n = width(c);
    if n == 0 {
        return false;
    }
    MOST_COLUMNS - n < column
}

// Writes an octet, behind a fold where its character would not end in the line.
pub fn fold_octet(out: &mut [u8], p: Folder, c: u8) -> Folder
    ensures { Folded (folding out.old p) (c ∷ []) (folding out.new result) }
{
    if breaks(p.column, c) {
        let to = put_all(out, p.at, b"\r\n ");
        let at = put(out, to, c);
        return Folder { at, column: 2 };
    }
    let at = put(out, p.at, c);
    let column = if p.column < MOST_COLUMNS {
        p.column + 1
    } else {
        MOST_COLUMNS + 1
    };
    Folder { at, column }
}

// An octet in its case as written: in uppercase, or as it is.
fn cased<const UPPER: bool>(c: u8) -> u8
    ensures { result ≡ cased_octet UPPER c }
{
    if UPPER { upper_octet(c) } else { c }
}

// Writes octets that all stand in safe columns.
fn fold_run<const UPPER: bool>(out: &mut [u8], p: Folder, s: &[u8]) -> Folder
    requires { p.column + length s.now + 3 ≤ most_columns }
    ensures { Folded (folding out.old p) (cased UPPER s.now) (folding out.new result) }
{
    let column = p.column + s.len();
    if UPPER {
        let at = put_upper(out, p.at, s);
        return Folder { at, column };
    }
    let at = put_all(out, p.at, s);
    Folder { at, column }
}

// The end of the octets from i on that fit into safe columns.
fn fitting_end(column: usize, i: usize, len: usize) -> usize
    requires { (column + 3 < most_columns) × (i < len) }
    ensures { (i < result) × (result ≤ len) × (column + (result - i) + 3 ≤ most_columns) }
{
    let room = SAFE_COLUMNS - column;
    if len - i <= room { len } else { i + room }
}

// Writes a slice that may end behind the safe columns: run by run.
// How far a step goes depends on the column that was reached: over a run, or over the one octet before which a fold may stand.
fn fold_long<const UPPER: bool>(out: &mut [u8], p: Folder, s: &[u8]) -> Folder
    ensures { Folded (folding out.old p) (cased UPPER s.now) (folding out.new result) }
{
    let mut q = p;
    let mut i = 0;
    while i < s.len() {
        if q.column < SAFE_COLUMNS {
            let end = fitting_end(q.column, i, s.len());
            q = fold_run::<UPPER>(out, q, &s[i..end]);
            i = end;
        } else {
            q = fold_octet(out, q, cased::<UPPER>(s[i]));
            i += 1;
        }
    }
    q
}

// Writes a slice; one that stands whole in safe columns is written at once.
fn fold_cased<const UPPER: bool>(out: &mut [u8], p: Folder, s: &[u8]) -> Folder
    ensures { Folded (folding out.old p) (cased UPPER s.now) (folding out.new result) }
{
    if p.column < SAFE_COLUMNS && s.len() <= SAFE_COLUMNS - p.column {
        return fold_run::<UPPER>(out, p, s);
    }
    fold_long::<UPPER>(out, p, s)
}

// Writes a slice as it is.
pub fn fold_all(out: &mut [u8], p: Folder, s: &[u8]) -> Folder
    ensures { Folded (folding out.old p) s.now (folding out.new result) }
{
    fold_cased::<false>(out, p, s)
}

// Writes a slice in uppercase.
pub fn fold_upper(out: &mut [u8], p: Folder, s: &[u8]) -> Folder
    ensures { Folded (folding out.old p) (upper s.now) (folding out.new result) }
{
    fold_cased::<true>(out, p, s)
}

// Ends a line; the next one begins at the place returned, in column 0.
pub fn end_line(out: &mut [u8], p: Folder) -> usize
    ensures { Wrote (pen out.old p.at) (octets "\r\n") (pen out.new result) }
{
    put_all(out, p.at, b"\r\n")
}
