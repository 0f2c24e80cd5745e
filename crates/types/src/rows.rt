// Reading rows.hex.
ghost use Rattle.std.specs.Prelude.{◌≡◌, ◌≤◌, eqb, length, take, IfSome};
ghost use Rattle.octets.specs.Basics.{◌and◌, ◌or◌, all};
ghost use Rattle.octets.specs.Classes.{between};
ghost use Rattle.octets.specs.Optional.{map?, then?, is_some, guard, said};
ghost use Rattle.octets.specs.Pen.{pen, wrote};
ghost use Rattle.octets.specs.Answers.{outcome, answer};
ghost use Rattle.types.specs.Codes.{binary, utc_offset, type_splits};
ghost use Rattle.types.specs.Rows.{row_octet, entry_of, row_of, rows_of, may_join};
ghost use Rattle.types.specs.Laid.{laid_row, laid, table_in, laid_of, room_for_rows};
ghost use Rattle.types.specs.Reading.{if_unlisted, pen_behind};

use crate::kinds::ValueType;
use crate::table::find;
use crate::{MOST_DIGITS, MOST_FRAME, ROOM_FOR_ROWS};
use octets::{
    MOST_ROWS, Refusal, find as next_octet, finish, hex_digit, is_digit, is_upper, put, put_all,
    refuse, same,
};

// Reads the content of rows.hex, and lays its rows out at the front of a buffer.
pub fn read_rows(hex: &[u8], rows: &mut [u8]) -> Result<usize, Refusal>
    ensures { outcome result rows.new ≡ answer (laid_of hex.now) rows.old }
{
    if rows.len() < ROOM_FOR_ROWS {
        return read_apart(hex, rows);
    }
    match lay_rows(hex, rows) {
        Some(n) => Ok(n),
        None => refuse(rows, Refusal::RowsMalformed),
    }
}

// The same where the rows of some file have no room: they are laid out apart, and copied if they fit.
fn read_apart(hex: &[u8], rows: &mut [u8]) -> Result<usize, Refusal>
    ensures { outcome result rows.new ≡ answer (laid_of hex.now) rows.old }
{
    let mut room = [0u8; ROOM_FOR_ROWS];
    match lay_rows(hex, &mut room) {
        Some(n) => {
            let end = put_all(rows, 0, &room[..n]);
            finish(rows, end)
        }
        None => refuse(rows, Refusal::RowsMalformed),
    }
}

// Lays out the rows line by line, and answers where they end; none where they are malformed.
// Each line is ended: of the pieces that a `split` yields the last is none, and a `for` over them would have to know it.
fn lay_rows(hex: &[u8], rows: &mut [u8]) -> Option<usize>
    requires { room_for_rows ≤ length rows.old }
    ensures { pen_behind result rows.new ≡ map? (λ es. wrote (pen rows.old 0) (laid es)) (guard may_join (rows_of hex.now)) }
{
    let mut from = 0;
    let mut at = 0;
    let mut count = 0;
    while from < hex.len() {
        let end = next_octet(hex, from, b'\n');
        if end == hex.len() {
            return None;
        }
        if count == MOST_ROWS {
            return None;
        }
        at = lay_line(&hex[from..end], rows, at)?;
        from = end + 1;
        count += 1;
    }
    Some(at)
}

// Lays out the row of a line, where it is one and its name is not listed already.
fn lay_line(line: &[u8], rows: &mut [u8], at: usize) -> Option<usize>
    requires { at ≤ length rows.old }
    ensures { pen_behind result rows.new ≡ map? (λ e. wrote (pen rows.old at) (laid_row e)) (if_unlisted (table_in (take at rows.old)) (row_of line.now)) }
{
    let mut frame = [0u8; MOST_FRAME];
    let n = decode(line, &mut frame)?;
    lay_frame(&frame[..n], rows, at)
}

// Lays out the row of a frame, where it is one and its name is not listed already.
fn lay_frame(frame: &[u8], rows: &mut [u8], at: usize) -> Option<usize>
    requires { at ≤ length rows.old }
    ensures { pen_behind result rows.new ≡ map? (λ e. wrote (pen rows.old at) (laid_row e)) (if_unlisted (table_in (take at rows.old)) (entry_of frame.now)) }
{
    if !is_row(frame) {
        return None;
    }
    if find(&rows[..at], &frame[2..]).is_some() {
        return None;
    }
    let start = put(rows, at, (frame.len() - 2) as u8);
    Some(put_all(rows, start, frame))
}

// Decodes the frame of a line, and answers its length; none for a line that is not made of pairs of digits, or is too long for a row.
fn decode(line: &[u8], frame: &mut [u8]) -> Option<usize>
    requires { length frame.old ≡ 34 }
    ensures within { IfSome result (λ n. n ≤ 34) }
    ensures row { then? (map? (λ n. take n frame.new) (said result)) entry_of ≡ row_of line.now }
{
    if MOST_DIGITS < line.len() {
        return None;
    }
    let mut left = line;
    let mut n = 0;
    while let [h, l, rest @ ..] = left {
        let high = hex_digit(*h)?;
        let low = hex_digit(*l)?;
        frame[n] = high * 16 + low;
        n += 1;
        left = rest;
    }
    if left.is_empty() { Some(n) } else { None }
}

// A frame is a row.
fn is_row(frame: &[u8]) -> bool
    ensures { result ≡ is_some (entry_of frame.now) }
{
    if frame.len() < 3 {
        return false;
    }
    if MOST_FRAME < frame.len() {
        return false;
    }
    if !is_kind(frame[0], frame[1]) {
        return false;
    }
    let name = &frame[2..];
    if !is_row_name(name) {
        return false;
    }
    if same(name, b"BEGIN") {
        return false;
    }
    !same(name, b"END")
}

// The code of a type, with 0 for one value, or 1 for many of a type that splits.
fn is_kind(code: u8, many: u8) -> bool
    ensures { result ≡ (between binary utc_offset code and (eqb many 0 or (eqb many 1 and type_splits code))) }
{
    match ValueType::of_code(code) {
        Some(kind) => many == 0 || many == 1 && kind.splits(),
        None => false,
    }
}

// Uppercase letters, digits and hyphens.
fn is_row_name(name: &[u8]) -> bool
    ensures { result ≡ all row_octet name.now }
{
    for &c in name {
        if !is_row_octet(c) {
            return false;
        }
    }
    true
}

fn is_row_octet(c: u8) -> bool
    ensures { result ≡ row_octet c }
{
    if is_upper(c) {
        return true;
    }
    if is_digit(c) {
        return true;
    }
    c == b'-'
}
