// What the converters' programs share: standard input, a file that may be there, and a conversion's answer on standard output.
#![tactic(auto)]

ghost use Rattle.std.specs.Prelude.{◌≡◌, ◌≤◌, eqb, length, drop};
ghost use Rattle.octets.specs.Answers.{outcome};
ghost use Rattle.octets.specs.Basics.{all};

use octets::Refusal;
use std::io::{ErrorKind, Read};
use std::rt::Files;
use std::{fs, io};

// Octets that are read of standard input: one more than the longest text that is not refused.
pub const ROOM_FOR_TEXT: usize = octets::MOST_TEXT + 1;

// Octets that are read of rows.hex: one more than the longest file that is not refused, of lines with 34 octets in hexadecimal.
pub const ROOM_FOR_FILE: usize = 69 * octets::MOST_ROWS + 1;

// Reads standard input until the buffer is full, the input ends or a read fails, and answers how many octets it put at the start of the buffer.
pub fn read_text<R: Input>(rt: &R, buf: &mut [u8]) -> usize
    ensures { result ≤ length buf.new }
{
    let mut input = rt.reader();
    read_full(&mut input, buf)
}

// Reads a file as far as there is room, and answers its length; 0 where there is none. Of a file that is there and cannot be read it makes the octet 0 alone,
// which is no row and no text. A file is not there only where the system says so of its name, so a path that is not UTF-8 cannot be read.
// A length and not a Result: with the octet 0 in place of what cannot be read, the converter itself keeps the order of its refusals, 1 before 2 (docs/DECISIONS.md).
pub fn load<R: Files>(rt: &R, path: &[u8], buf: &mut [u8]) -> usize
    ensures { result ≤ length buf.new }
{
    let Ok(name) = str::from_utf8(path) else {
        return unreadable(buf);
    };
    match fs::open(rt, name) {
        Ok(mut file) => load_open(&mut file, buf),
        Err(e) if e.kind() == ErrorKind::NotFound => 0,
        Err(_) => unreadable(buf),
    }
}

// Reads an open file, as `load` does.
fn load_open<F: Read>(file: &mut F, buf: &mut [u8]) -> usize
    ensures { result ≤ length buf.new }
{
    let n = read_full(file, buf);
    if is_all(file, n, buf.len()) {
        n
    } else {
        unreadable(buf)
    }
}

// Reads until the buffer is full, the file ends or a read fails, and answers how many octets it put at the start of the buffer.
fn read_full<F: Read>(file: &mut F, buf: &mut [u8]) -> usize
    ensures { result ≤ length buf.new }
{
    let mut done = 0;
    while done < buf.len() {
        let n = file.read(&mut buf[done..]).unwrap_or(0);
        if n == 0 {
            break;
        }
        done += n;
    }
    done
}

// The n octets that were read are all for which there is room, or all that the file has: one more read finds its end and does not fail.
fn is_all<F: Read>(file: &mut F, n: usize, room: usize) -> bool {
    n == room || matches!(file.read(&mut [0]), Ok(0))
}

fn unreadable(buf: &mut [u8]) -> usize
    ensures { result ≤ length buf.new }
{
    let Some(first) = buf.first_mut() else {
        return 0;
    };
    *first = 0;
    1
}

// Whether from `from` on there is nothing but b.
pub fn rest_is(s: &[u8], from: usize, b: u8) -> bool
    ensures { result ≡ all (λ c. eqb c b) (drop from s.now) }
{
    s.iter().skip(from).all(|&c| c == b)
}

fn print_text(rt: &impl Print, out: &[u8], n: usize) -> (u8, io::Result<()>)
    ensures { result.0 ≡ 0 }
{
    if n <= out.len() {
        return (0, rt.write_all(&out[..n]));
    }
    (0, Ok(()))
}

// Prints the text that was written, or a line with the refusal's number; answers that number, 0 for none, and whether it could print.
pub fn print_answer(
    rt: &impl Print,
    out: &[u8],
    answer: Result<usize, Refusal>,
) -> (u8, io::Result<()>)
    ensures { result.0 ≡ (outcome answer out.now).number }
{
    match answer {
        Ok(n) => print_text(rt, out, n),
        Err(why) => {
            let number = why.number();
            (number, println!(rt; "refused {number}"))
        }
    }
}
