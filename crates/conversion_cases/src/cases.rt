// Cases in files: NAME.ics or NAME.json with the rows of NAME.rows, if there are any, must give NAME.out, a text or the line of a refusal. The file index names them.
ghost use Rattle.std.specs.Prelude.{◌≤◌, length};

use console::{ROOM_FOR_FILE, ROOM_FOR_TEXT, rest_is};
use content::line_end;
use ical::to_ical;
use jcal::to_jcal;
use octets::{MOST_TEXT, Refusal, put, put_all, put_decimal, same};
use std::io;
use std::rt::Files;

// What a buffer holds where nothing is written.
const BLANK: u8 = 170;

// Which conversion a folder's cases are for.
#[derive(Clone, Copy)]
pub(crate) enum Direction {
    ToJcal,
    ToIcal,
}

// Reads a file of a case, and answers its length; 0 where there is none.
fn load_part(rt: &impl Files, folder: &[u8], name: &[u8], ending: &[u8], buf: &mut [u8]) -> usize
    ensures { result ≤ length buf.new }
{
    let mut path = [0u8; 64];
    let n = put_all(&mut path, 0, folder);
    let m = put_all(&mut path, n, name);
    let e = put_all(&mut path, m, ending);
    if 64 < e {
        return 0;
    }
    console::load(rt, &path[0..e], buf)
}

// Reads the text of a case.
fn load_text(rt: &impl Files, folder: &[u8], to: Direction, name: &[u8], buf: &mut [u8]) -> usize
    ensures { result ≤ length buf.new }
{
    match to {
        Direction::ToJcal => load_part(rt, folder, name, b".ics", buf),
        Direction::ToIcal => load_part(rt, folder, name, b".json", buf),
    }
}

// The line of a refusal is this one.
fn is_line(number: u8, want: &[u8]) -> bool {
    let mut line = [0u8; 32];
    let a = put_all(&mut line, 0, b"refused ");
    let b = put_decimal(&mut line, a, number as u64);
    let n = put(&mut line, b, b'\n');
    n <= 32 && same(&line[0..n], want)
}

// The text stands at the front, and what lies behind is unchanged.
fn is_text(out: &[u8], n: usize, want: &[u8]) -> bool {
    n <= out.len() && rest_is(out, n, BLANK) && same(&out[0..n], want)
}

// The answer and the buffer are as they must be: where it is refused, the buffer is zeroed.
fn is_answer(r: Result<usize, Refusal>, out: &[u8], want: &[u8]) -> bool {
    match r {
        Ok(n) => is_text(out, n, want),
        Err(why) => {
            if !rest_is(out, 0, 0) {
                return false;
            }
            is_line(why.number(), want)
        }
    }
}

fn convert(to: Direction, text: &[u8], rows: &[u8], out: &mut [u8]) -> Result<usize, Refusal> {
    match to {
        Direction::ToJcal => to_jcal(text, rows, out),
        Direction::ToIcal => to_ical(text, rows, out),
    }
}

// The conversion into a buffer of n octets gives what it must.
fn gives(to: Direction, text: &[u8], rows: &[u8], n: usize, want: &[u8]) -> bool {
    if MOST_TEXT < n {
        return false;
    }
    let mut lent = [BLANK; MOST_TEXT];
    let out = &mut lent[0..n];
    let r = convert(to, text, rows, out);
    is_answer(r, out, want)
}

// A text fits into a buffer of its length, and into no shorter one.
fn just_fits(to: Direction, text: &[u8], rows: &[u8], n: usize, want: &[u8]) -> bool {
    n != 0 && gives(to, text, rows, n, want) && gives(to, text, rows, n - 1, b"refused 10\n")
}

fn holds(to: Direction, text: &[u8], rows: &[u8], want: &[u8]) -> bool {
    let mut out = [BLANK; MOST_TEXT];
    let r = convert(to, text, rows, &mut out);
    if !is_answer(r, &out, want) {
        return false;
    }
    match r {
        Ok(n) => just_fits(to, text, rows, n, want),
        Err(_) => true,
    }
}

// Runs a case, and says so where it fails.
fn run(rt: &(impl Files + Print), folder: &[u8], to: Direction, name: &[u8]) -> io::Result<()> {
    let mut text = [0u8; ROOM_FOR_TEXT];
    let mut rows = [0u8; ROOM_FOR_FILE];
    let mut want = [0u8; ROOM_FOR_TEXT];
    let n = load_text(rt, folder, to, name, &mut text);
    let m = load_part(rt, folder, name, b".rows", &mut rows);
    let k = load_part(rt, folder, name, b".out", &mut want);
    if !holds(to, &text[0..n], &rows[0..m], &want[0..k]) {
        rt.write_all(b"failed: ")?;
        rt.write_all(name)?;
        rt.write_all(b"\n")?;
    }
    Ok(())
}

// Runs the cases of a folder, and answers how many there are.
fn run_all(
    rt: &(impl Files + Print),
    folder: &[u8],
    to: Direction,
    index: &[u8],
) -> io::Result<u64> {
    let mut n: u64 = 0;
    let mut i = 0;
    // A `for` over `split_inclusive` does not prove here: the module that the check makes for its iterator is refused.
    while i < index.len() {
        let e = line_end(index, i);
        run(rt, folder, to, &index[i..e])?;
        n += 1;
        i = e + 1;
    }
    Ok(n)
}

// Runs the cases of a folder, and prints how many there are.
pub(crate) fn run_folder(
    rt: &(impl Files + Print),
    folder: &[u8],
    to: Direction,
) -> io::Result<()> {
    let mut index = [0u8; 16384];
    let n = load_part(rt, folder, b"index", b"", &mut index);
    rt.write_all(folder)?;
    rt.write_all(b" ")?;
    let cases = run_all(rt, folder, to, &index[0..n])?;
    println!(rt; "{cases} cases")
}
