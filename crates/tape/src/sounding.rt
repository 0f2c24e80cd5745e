// Whether a tape is sound: no object has a key twice, and no string has a lone surrogate.
ghost use Rattle.std.specs.Prelude.{◌≡◌, ◌+◌, ◌≤◌, ◌<◌, true, length};
ghost use Rattle.tape.specs.Sound.{has_lone};
ghost use Rattle.tape.specs.Scan.{sound_tape, Scans, keys_from, keys_along};

use super::keys::keys_distinct;
use super::walking::{after, past_text, text_end};
use super::{END, NUMBER, OBJECT, STRING};
use octets::{find, is_free};

// The octet that a surrogate begins with. Few texts have it.
const SURROGATE: u8 = 237;

// Whether a lone surrogate stands in the octets of a string.
fn has_lone(s: &[u8]) -> bool
    ensures { result ≡ has_lone 0 s.now }
{
    let mut p = 0;
    for &b in s {
        if 160 <= b && p == SURROGATE {
            return true;
        }
        p = b;
    }
    false
}

// One turn of the scan, past a text and otherwise one octet on: the place that it goes on from; none, where something is not sound.
fn scan(t: &[u8], at: usize) -> Option<usize>
    requires { at < length t.now }
    ensures { Scans t.now at result }
{
    let b = t[at];
    match b {
        STRING => {
            let e = text_end(t, at + 1);
            if has_lone(&t[at + 1..e]) {
                None
            } else {
                Some(after(t, e))
            }
        }
        NUMBER => Some(past_text(t, at + 1)),
        OBJECT => {
            if keys_distinct(t, at + 1) {
                Some(at + 1)
            } else {
                None
            }
        }
        _ => Some(at + 1),
    }
}

// Whether the whole tape is sound, value by value.
fn each_sound(t: &[u8]) -> bool
    ensures { result ≡ sound_tape t.now }
{
    let mut i = 0;
    while i < t.len() {
        let Some(e) = scan(t, i) else {
            return false;
        };
        i = e;
    }
    true
}

// The next octet from `at` on that may be an object's tag, or the end.
fn next_object(t: &[u8], at: usize) -> usize
    ensures { (at ≤ result) × (keys_from t.now result ≡ keys_from t.now at) }
{
    find(t, at, OBJECT)
}

// Whether the keys behind each octet that may be an object's tag are all different. Behind an end it is surely a tag; elsewhere it may stand in a
// text, and the answer is no.
fn all_distinct(t: &[u8]) -> bool
    ensures { result ≡ true → keys_along t.now ≡ true }
{
    let mut i = next_object(t, 0);
    while i < t.len() {
        if i == 0 || t[i - 1] != END || !keys_distinct(t, i + 1) {
            return false;
        }
        i = next_object(t, i + 1);
    }
    true
}

// Whether the whole tape is sound. Without the octet that a surrogate begins with, only keys can fault, and they are looked for without passing
// each string.
pub fn is_sound(t: &[u8]) -> bool
    ensures { result ≡ sound_tape t.now }
{
    if is_free(t, SURROGATE) && all_distinct(t) {
        return true;
    }
    each_sound(t)
}
