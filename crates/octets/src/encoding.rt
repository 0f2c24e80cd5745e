// UTF-8.
ghost use Rattle.std.specs.Prelude.{◌≡◌, ◌<◌, ◌≤◌, leb, get_or};
ghost use Rattle.octets.specs.Basics.{all};
ghost use Rattle.octets.specs.Utf8.{Due, start, utf8};
ghost use Rattle.octets.specs.Characters.{Awaits, Ends, still};

use crate::names::{each_is, peek, within};

// The end of a character of which an octet from lo to hi is due at i, and then MORE octets; None where it is broken.
fn end_of<const MORE: usize>(s: &[u8], i: usize, lo: u8, hi: u8) -> Option<usize>
    requires low { 0 < lo }
    requires few { MORE ≤ 2 }
    ensures { (d : Due) → Awaits d lo hi (still MORE) → Ends d s.now i result }
{
    if !within(lo, hi, peek(s, i)) {
        return None;
    }
    for k in 0..MORE {
        if !within(128, 191, peek(s, i + 1 + k)) {
            return None;
        }
    }
    Some(i + 1 + MORE)
}

// The end of the character of several octets that begins at i; None where none does.
fn character(s: &[u8], i: usize) -> Option<usize>
    requires { 127 < get_or s.now i 0 }
    ensures { Ends start s.now i result }
{
    let c = peek(s, i);
    let next = i + 1;
    if c <= 193 {
        return None;
    }
    if c <= 223 {
        return end_of::<0>(s, next, 128, 191);
    }
    if c == 224 {
        return end_of::<1>(s, next, 160, 191);
    }
    if c == 237 {
        return end_of::<1>(s, next, 128, 159);
    }
    if c <= 239 {
        return end_of::<1>(s, next, 128, 191);
    }
    if c == 240 {
        return end_of::<2>(s, next, 144, 191);
    }
    if c <= 243 {
        return end_of::<2>(s, next, 128, 191);
    }
    if c == 244 {
        return end_of::<2>(s, next, 128, 143);
    }
    None
}

// Each octet is one of ASCII; without a way out on the way.
fn all_ascii(s: &[u8]) -> bool
    ensures { result ≡ all (λ c. leb c 127) s.now }
{
    each_is(s, |c| c <= 127)
}

pub fn is_utf8(s: &[u8]) -> bool
    ensures { result ≡ utf8 s.now }
{
    all_ascii(s) || has_characters(s)
}

// UTF-8, a character at a time.
fn has_characters(s: &[u8]) -> bool
    ensures { result ≡ utf8 s.now }
{
    let mut i = 0;
    while i < s.len() {
        if s[i] <= 127 {
            i += 1;
        } else {
            let Some(next) = character(s, i) else {
                return false;
            };
            i = next;
        }
    }
    true
}
