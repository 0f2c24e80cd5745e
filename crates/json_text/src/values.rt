// JSON values onto the tape (RFC 8259 2 to 5): value, array and object readers call each other for what nests; elements follow in loops.
ghost use Rattle.std.specs.Prelude.{◌≡◌, List, [], ◌∷◌, ℕ};
ghost use Rattle.octets.specs.Pen.{pen};
ghost use Rattle.json_text.specs.Reads.{literal as word_of};
ghost use Rattle.json_text.specs.Numbers.{number_read};
ghost use Rattle.json_text.specs.Reader.{member_key, value_within, parse_text};
ghost use Rattle.json_text.specs.Tape.{tag_number, tag_end, ser_text, ser_string, ser};
ghost use Rattle.json_text.specs.Parse.{taped, parsed_onto};
ghost use Rattle.json_text.specs.Promise.{Agrees, on_bracket, on_brace};

use crate::numbers::past_number;
use crate::scanning::{past_space, past_word};
use crate::strings::string;
use crate::{ARRAY, END, FALSE, JsonError, JsonRead, NULL, NUMBER, OBJECT, TRUE};

// Reads a literal name, and writes the tag that stands for it.
fn literal<'a>(text: &'a [u8], word: &[u8], tape: &mut [u8], to: usize, tag: u8) -> JsonRead<'a>
    ensures { Agrees (λ (_ : Unit {0}). tag ∷ []) (pen tape.old to) tape.new (word_of word.now text.now) result }
{
    let Some(rest) = past_word(text, word) else {
        return Err(JsonError::NotJson);
    };
    Ok((rest, octets::put(tape, to, tag)))
}

// Reads a number, kept as its text.
fn number<'a>(text: &'a [u8], tape: &mut [u8], to: usize) -> JsonRead<'a>
    ensures { Agrees (λ (t : List ℕ). tag_number ∷ ser_text t) (pen tape.old to) tape.new (number_read text.now) result }
{
    let Some(rest) = past_number(text) else {
        return Err(JsonError::NotJson);
    };
    let p = octets::put(tape, to, NUMBER);
    let q = octets::put_all(tape, p, &text[..text.len() - rest.len()]);
    Ok((rest, octets::put(tape, q, END)))
}

// Reads a key, up to its value.
fn key<'a>(text: &'a [u8], tape: &mut [u8], to: usize) -> JsonRead<'a>
    ensures { Agrees ser_string (pen tape.old to) tape.new (member_key text.now) result }
{
    let [b'"', rest @ ..] = text else {
        return Err(JsonError::NotJson);
    };
    let (behind, q) = string(rest, tape, to)?;
    let [b':', next @ ..] = past_space(behind) else {
        return Err(JsonError::NotJson);
    };
    Ok((past_space(next), q))
}

// Reads the octet that ends an array or an object.
fn close<'a>(text: &'a [u8], end: u8, tape: &mut [u8], to: usize) -> JsonRead<'a>
    ensures { Agrees (λ (_ : Unit {0}). tag_end ∷ []) (pen tape.old to) tape.new (word_of (end ∷ []) text.now) result }
{
    match text {
        [b, rest @ ..] if *b == end => Ok((rest, octets::put(tape, to, END))),
        _ => Err(JsonError::NotJson),
    }
}

// Reads a value in which at most `left` arrays and objects are open at once.
#[cycle(array_element_object_value)]
fn value<'a>(text: &'a [u8], left: usize, tape: &mut [u8], to: usize) -> JsonRead<'a>
    ensures { Agrees ser (pen tape.old to) tape.new (value_within left text.now) result }
{
    match text {
        [b'[', rest @ ..] => array(rest, left, tape, to),
        [b'{', rest @ ..] => object(rest, left, tape, to),
        [b'"', rest @ ..] => string(rest, tape, to),
        [b'n', rest @ ..] => literal(rest, b"ull", tape, to, NULL),
        [b'f', rest @ ..] => literal(rest, b"alse", tape, to, FALSE),
        [b't', rest @ ..] => literal(rest, b"rue", tape, to, TRUE),
        _ => number(text, tape, to),
    }
}

// Reads a value: a string at once, and any other by `value`.
#[cycle(array_element_object_value)]
fn element<'a>(text: &'a [u8], left: usize, tape: &mut [u8], to: usize) -> JsonRead<'a>
    ensures { Agrees ser (pen tape.old to) tape.new (value_within left text.now) result }
{
    if let [b'"', rest @ ..] = text {
        return string(rest, tape, to);
    }
    value(text, left, tape, to)
}

// Reads what follows `[`.
#[cycle(array_element_object_value)]
fn array<'a>(text: &'a [u8], left: usize, tape: &mut [u8], to: usize) -> JsonRead<'a>
    ensures { Agrees ser (pen tape.old to) tape.new (value_within left (on_bracket text.now)) result }
{
    if left == 0 {
        return Err(JsonError::TooDeep);
    }
    let mut p = octets::put(tape, to, ARRAY);
    let mut rest = past_space(text);
    if octets::peek(rest, 0) == b']' {
        return close(rest, b']', tape, p);
    }
    loop {
        let (behind, q) = element(rest, left - 1, tape, p)?;
        let other = past_space(behind);
        let [b',', more @ ..] = other else {
            return close(other, b']', tape, q);
        };
        p = q;
        rest = past_space(more);
    }
}

// Reads what follows `{`. No twin of `array`: a key is read before each element, by a contract of its own.
#[cycle(array_element_object_value)]
fn object<'a>(text: &'a [u8], left: usize, tape: &mut [u8], to: usize) -> JsonRead<'a>
    ensures { Agrees ser (pen tape.old to) tape.new (value_within left (on_brace text.now)) result }
{
    if left == 0 {
        return Err(JsonError::TooDeep);
    }
    let mut p = octets::put(tape, to, OBJECT);
    let mut rest = past_space(text);
    if octets::peek(rest, 0) == b'}' {
        return close(rest, b'}', tape, p);
    }
    loop {
        let (next, b) = key(rest, tape, p)?;
        let (behind, q) = element(next, left - 1, tape, b)?;
        let other = past_space(behind);
        let [b',', more @ ..] = other else {
            return close(other, b'}', tape, q);
        };
        p = q;
        rest = past_space(more);
    }
}

// Reads a whole text, and writes from the tape's beginning on.
fn whole<'a>(text: &'a [u8], tape: &mut [u8]) -> JsonRead<'a>
    ensures { Agrees ser (pen tape.old 0) tape.new (parse_text text.now) result }
{
    let (behind, n) = value(past_space(text), octets::MOST_OPEN, tape, 0)?;
    let rest = past_space(behind);
    if !rest.is_empty() {
        return Err(JsonError::NotJson);
    }
    Ok((rest, n))
}

// Reads a JSON text onto the tape; where there is none, or no room for it, the tape is zeroed.
pub fn parse(text: &[u8], tape: &mut [u8]) -> Result<usize, JsonError>
    ensures { taped result tape.new ≡ parsed_onto (parse_text text.now) tape.old }
{
    let read = whole(text, tape);
    match read {
        Ok((_, n)) => {
            if n <= tape.len() {
                return Ok(n);
            }
            octets::zero(tape);
            Err(JsonError::NoRoom)
        }
        Err(why) => {
            octets::zero(tape);
            Err(why)
        }
    }
}
