// From place to place over a tape. Any octets are a tape, and past its end stands the end of every group.
ghost use Rattle.std.specs.Prelude.{◌≡◌, ◌+◌, min, length};
ghost use Rattle.tape.specs.Decode.{tag_at, text_at, list_at};
ghost use Rattle.tape.specs.Promise.{After, Next, Left, TextAt, Leaf};

use super::{ARRAY, END, NUMBER, OBJECT, STRING, Text};
use octets::find_near;

// The octet at a place.
pub fn tag(t: &[u8], at: usize) -> u8
    ensures { result ≡ tag_at t.now at }
{
    if at < t.len() { t[at] } else { END }
}

// One octet on: into the group whose tag stands here, or out of the one that ends here.
pub fn after(t: &[u8], at: usize) -> usize
    ensures { After t.now at result }
{
    if at < t.len() { at + 1 } else { t.len() }
}

// Where the text at `at` ends.
pub(crate) fn text_end(t: &[u8], at: usize) -> usize
    ensures { result ≡ at + length (text_at t.now at) }
{
    find_near(t, at, END)
}

// Behind the text at `at` and its end.
pub fn past_text(t: &[u8], at: usize) -> usize
    ensures { After t.now (at + length (text_at t.now at)) result }
{
    let e = text_end(t, at);
    after(t, e)
}

// Behind the value at `at`, which is no array and no object.
fn past_leaf(t: &[u8], at: usize) -> usize
    requires { Leaf t.now at }
    ensures { Next t.now at result }
{
    let b = tag(t, at);
    match b {
        NUMBER | STRING => past_text(t, at + 1),
        _ => at + 1,
    }
}

// Behind the end of the group that `at` stands in.
pub fn leave(t: &[u8], at: usize) -> usize
    ensures { Left t.now at result }
{
    let mut i = at;
    let mut ends: usize = 1;
    while i < t.len() {
        let b = t[i];
        match b {
            END => {
                if ends == 1 {
                    return i + 1;
                }
                ends -= 1;
                i += 1;
            }
            ARRAY | OBJECT => {
                ends += 1;
                i += 1;
            }
            _ => {
                i = past_leaf(t, i);
            }
        }
    }
    t.len()
}

// Behind the value at `at`.
pub fn behind(t: &[u8], at: usize) -> usize
    ensures { Next t.now at result }
{
    if at >= t.len() {
        return t.len();
    }
    let b = tag(t, at);
    match b {
        END => at,
        ARRAY | OBJECT => leave(t, at + 1),
        _ => past_leaf(t, at),
    }
}

// The number or string at `at`; any other value has no octets.
pub fn text_at(t: &[u8], at: usize) -> Text
    ensures { TextAt t.now at result }
{
    let b = tag(t, at);
    match b {
        NUMBER | STRING => {
            let e = text_end(t, at + 1);
            let n = after(t, e);
            Text {
                from: at + 1,
                to: e,
                next: n,
            }
        }
        _ => {
            let n = behind(t, at);
            Text {
                from: n,
                to: n,
                next: n,
            }
        }
    }
}

// How many values stand from `at` to the end of the group, `most` at most.
pub fn count(t: &[u8], at: usize, most: usize) -> usize
    ensures { result ≡ min most (length (list_at t.now at)) }
{
    let mut i = at;
    for n in 0..most {
        if tag(t, i) == END {
            return n;
        }
        i = behind(t, i);
    }
    most
}
