// Properties of the skeleton: each test tells where the value at a place ends, if it passes.
ghost use Rattle.tape.specs.Decode.{value_at};
ghost use Rattle.conversion_theory.specs.Skeleton.{is_list_of, is_property};
ghost use Rattle.ical_skeleton.specs.Checks.{Checks};

use super::parameters::{check_name, check_parameters, check_property_name};
use tape::{ARRAY, END, after, leave, tag};

// Name, parameters, type, and at least one value.
fn check_property(t: &[u8], at: usize) -> Option<usize>
    ensures { Checks t.now at (is_property (value_at t.now at)) result }
{
    if tag(t, at) != ARRAY {
        return None;
    }
    let a = after(t, at);
    let b = check_property_name(t, a)?;
    let c = check_parameters(t, b)?;
    let d = check_name(t, c)?;
    if tag(t, d) == END {
        return None;
    }
    Some(leave(t, d))
}

// An array of properties.
pub fn check_properties(t: &[u8], at: usize) -> Option<usize>
    ensures { Checks t.now at (is_list_of is_property (value_at t.now at)) result }
{
    if tag(t, at) != ARRAY {
        return None;
    }
    let mut i = after(t, at);
    loop {
        if tag(t, i) == END {
            return Some(after(t, i));
        }
        i = check_property(t, i)?;
    }
}
