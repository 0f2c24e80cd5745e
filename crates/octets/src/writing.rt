// The pen: octets into a lent buffer. A write past its end only moves the place to one past the length.
ghost use Rattle.std.specs.Prelude.{◌≡◌, [], ◌∷◌, ◌++◌, map, ◌+◌, ◌≤◌, length, take, drop, replicate};
ghost use Rattle.octets.specs.Classes.{upper, lower};
ghost use Rattle.octets.specs.Groups.{cased};
ghost use Rattle.octets.specs.Pen.{pen, Wrote};

use crate::names::Case;

// Writes one octet.
pub fn put(out: &mut [u8], at: usize, b: u8) -> usize
    ensures { Wrote (pen out.old at) (b ∷ []) (pen out.new result) }
{
    if at < out.len() {
        out[at] = b;
        at + 1
    } else {
        out.len() + 1
    }
}

// Writes a slice.
pub fn put_all(out: &mut [u8], at: usize, src: &[u8]) -> usize
    ensures { Wrote (pen out.old at) src.now (pen out.new result) }
{
    put_cased(out, at, src, Case::Exact)
}

// Writes a slice in one case octet by octet, as far as there is room.
fn put_each(out: &mut [u8], at: usize, src: &[u8], case: Case) -> usize
    ensures { Wrote (pen out.old at) (map (cased case) src.now) (pen out.new result) }
{
    let mut to = at;
    for &c in src {
        to = put(out, to, case.turn(c));
    }
    to
}

// Writes a slice in one case over a part of the same length. In a loop and not by `copy_from_slice`, which calls `memmove`: a caller in C need not have it.
#[inline(always)]
fn turn_into(part: &mut [u8], src: &[u8], case: Case)
    requires { length part.old ≡ length src.now }
    ensures { part.new ≡ map (cased case) src.now }
{
    for (i, &c) in src.iter().enumerate() {
        part[i] = case.turn(c);
    }
}

// Writes a slice in one case.
#[inline(always)]
fn put_cased(out: &mut [u8], at: usize, src: &[u8], case: Case) -> usize
    ensures { Wrote (pen out.old at) (map (cased case) src.now) (pen out.new result) }
{
    if at <= out.len() && src.len() <= out.len() - at {
        turn_into(&mut out[at..at + src.len()], src, case);
        return at + src.len();
    }
    put_each(out, at, src, case)
}

// Writes a slice in uppercase.
pub fn put_upper(out: &mut [u8], at: usize, src: &[u8]) -> usize
    ensures { Wrote (pen out.old at) (upper src.now) (pen out.new result) }
{
    put_cased(out, at, src, Case::Upper)
}

// Writes a slice in lowercase.
pub fn put_lower(out: &mut [u8], at: usize, src: &[u8]) -> usize
    ensures { Wrote (pen out.old at) (lower src.now) (pen out.new result) }
{
    put_cased(out, at, src, Case::Lower)
}

// Zeroes the whole buffer.
pub fn zero(out: &mut [u8])
    ensures { out.new ≡ replicate (length out.old) 0 }
{
    out.fill(0);
}
