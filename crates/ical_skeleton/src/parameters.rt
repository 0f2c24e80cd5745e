// Names and parameters of the skeleton: each test tells where the value at a place ends, if it passes.
ghost use Rattle.octets.specs.Optional.{holds};
ghost use Rattle.octets.specs.Classes.{is_lower_name};
ghost use Rattle.json_text.specs.Tree.{string?, object?};
ghost use Rattle.tape.specs.Decode.{value_at};
ghost use Rattle.conversion_theory.specs.Skeleton.{is_json_string, is_list_of, is_parameter, are_parameters, is_property_name};
ghost use Rattle.ical_skeleton.specs.Checks.{Checks};

use octets::{is_lower_name, same};
use tape::{ARRAY, END, OBJECT, STRING, after, behind, tag, text_at};

// A lowercase name.
pub fn check_name(t: &[u8], at: usize) -> Option<usize>
    ensures { Checks t.now at (holds is_lower_name (string? (value_at t.now at))) result }
{
    if tag(t, at) != STRING {
        return None;
    }
    let x = text_at(t, at);
    if !is_lower_name(&t[x.from..x.to]) {
        return None;
    }
    Some(x.next)
}

// A lowercase name that a property may have.
pub fn check_property_name(t: &[u8], at: usize) -> Option<usize>
    ensures { Checks t.now at (holds is_property_name (string? (value_at t.now at))) result }
{
    if tag(t, at) != STRING {
        return None;
    }
    let x = text_at(t, at);
    let name = &t[x.from..x.to];
    if !is_lower_name(name) || same(name, b"begin") || same(name, b"end") {
        return None;
    }
    Some(x.next)
}

// An array of strings.
fn check_strings(t: &[u8], at: usize) -> Option<usize>
    ensures { Checks t.now at (is_list_of is_json_string (value_at t.now at)) result }
{
    if tag(t, at) != ARRAY {
        return None;
    }
    let mut i = after(t, at);
    loop {
        let b = tag(t, i);
        if b == END {
            return Some(after(t, i));
        }
        if b != STRING {
            return None;
        }
        i = behind(t, i);
    }
}

// A parameter: a string, or a filled array of strings.
fn check_parameter(t: &[u8], at: usize) -> Option<usize>
    ensures { Checks t.now at (is_parameter (value_at t.now at)) result }
{
    if tag(t, at) == STRING {
        return Some(behind(t, at));
    }
    let a = after(t, at);
    if tag(t, a) == END {
        return None;
    }
    check_strings(t, at)
}

// Parameters under lowercase names.
pub fn check_parameters(t: &[u8], at: usize) -> Option<usize>
    ensures { Checks t.now at (holds are_parameters (object? (value_at t.now at))) result }
{
    if tag(t, at) != OBJECT {
        return None;
    }
    let mut i = after(t, at);
    loop {
        if tag(t, i) == END {
            return Some(after(t, i));
        }
        let k = text_at(t, i);
        if !is_lower_name(&t[k.from..k.to]) {
            return None;
        }
        i = check_parameter(t, k.next)?;
    }
}
