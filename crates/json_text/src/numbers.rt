// JSON numbers (RFC 8259 6), by the parts of the grammar: what stands behind each.
ghost use Rattle.std.specs.Prelude.{get_or, drop};
ghost use Rattle.octets.specs.Basics.{pick};
ghost use Rattle.json_text.specs.Reads.{ok};
ghost use Rattle.json_text.specs.Numbers.{is_exponent, scan, start, minus, zero, point, e as behind_e, sign};
ghost use Rattle.json_text.specs.Promise.{Digits, Behind};

use octets::Class;

// One digit or more.
fn past_digits(text: &[u8]) -> Option<&[u8]>
    ensures { Digits text.now result }
{
    let n = octets::run_end(text, 0, Class::Digit);
    if n == 0 { None } else { Some(&text[n..]) }
}

// Behind the sign of an exponent: digits, to the end of a number.
fn past_sign(text: &[u8]) -> Option<&[u8]>
    ensures { Behind (scan sign text.now) result }
{
    past_digits(text)
}

// Behind e: a sign or none, and digits.
fn past_power(text: &[u8]) -> Option<&[u8]>
    ensures { Behind (scan behind_e text.now) result }
{
    match text {
        [b'+' | b'-', rest @ ..] => past_sign(rest),
        _ => past_sign(text),
    }
}

// An exponent or none.
fn past_exponent(text: &[u8]) -> Option<&[u8]>
    ensures { Behind (pick (is_exponent (get_or text.now 0 0)) (scan behind_e (drop 1 text.now)) (ok tt text.now)) result }
{
    match text {
        [b'e' | b'E', rest @ ..] => past_power(rest),
        _ => Some(text),
    }
}

// Behind the point: digits, and an exponent or none.
fn past_fraction(text: &[u8]) -> Option<&[u8]>
    ensures { Behind (scan point text.now) result }
{
    past_exponent(past_digits(text)?)
}

// Behind the whole digits: a fraction or none, and an exponent or none.
fn past_whole(text: &[u8]) -> Option<&[u8]>
    ensures { Behind (scan zero text.now) result }
{
    match text {
        [b'.', rest @ ..] => past_fraction(rest),
        _ => past_exponent(text),
    }
}

// A number behind its minus: a zero alone or digits, and what may follow.
fn past_unsigned(text: &[u8]) -> Option<&[u8]>
    ensures { Behind (scan minus text.now) result }
{
    match text {
        [b'0', rest @ ..] => past_whole(rest),
        _ => past_whole(past_digits(text)?),
    }
}

pub(crate) fn past_number(text: &[u8]) -> Option<&[u8]>
    ensures { Behind (scan start text.now) result }
{
    match text {
        [b'-', rest @ ..] => past_unsigned(rest),
        _ => past_unsigned(text),
    }
}
