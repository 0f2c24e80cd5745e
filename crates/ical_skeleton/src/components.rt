// Components of the skeleton, and the calendar that they make.
ghost use Rattle.ical_skeleton.specs.Checks.{Heads, ComponentAt, Shapes};

use super::parameters::check_name;
use super::properties::check_properties;
use octets::{MOST_OPEN, same};
use tape::{ARRAY, END, after, tag, text_at};

// A component's name and properties: the place of its sub-components.
fn check_head(t: &[u8], at: usize) -> Option<usize>
    ensures { Heads t.now at result }
{
    if tag(t, at) != ARRAY {
        return None;
    }
    let a = after(t, at);
    let b = check_name(t, a)?;
    check_properties(t, b)
}

// A component of at most `left` levels: where it ends, and how many levels it has.
fn check_component(t: &[u8], at: usize, left: usize) -> Option<(usize, usize)>
    ensures { ComponentAt t.now at left result }
{
    if left == 0 {
        return None;
    }
    let p = check_head(t, at)?;
    if tag(t, p) != ARRAY {
        return None;
    }
    let mut i = after(t, p);
    let mut levels = 0;
    loop {
        if tag(t, i) == END {
            let e = after(t, i);
            if tag(t, e) != END {
                return None;
            }
            let f = after(t, e);
            return Some((f, levels + 1));
        }
        let (e, n) = check_component(t, i, left - 1)?;
        i = e;
        levels = levels.max(n);
    }
}

// The levels of the calendar on the tape, if it is one.
pub fn shape_of(t: &[u8]) -> Option<usize>
    ensures { Shapes t.now result }
{
    let (_, n) = check_component(t, 0, MOST_OPEN)?;
    let a = after(t, 0);
    let x = text_at(t, a);
    if !same(&t[x.from..x.to], b"vcalendar") {
        return None;
    }
    Some(n)
}
