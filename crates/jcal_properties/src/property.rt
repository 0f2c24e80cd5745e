// A property of a content line: numbers 7, 8 and 9, and the property as jCal.
ghost use Rattle.std.specs.Prelude.{◌≡◌, [], ◌≤◌, length};
ghost use Rattle.std.proofs.Math.Option.{none};
ghost use Rattle.octets.specs.Classes.{lower};
ghost use Rattle.octets.specs.Basics.{pick};
ghost use Rattle.octets.specs.Answers.{answered, refused, accepted, then};
ghost use Rattle.octets.specs.Pen.{pen, Wrote};
ghost use Rattle.json_text.specs.Print.{print_string};
ghost use Rattle.types.specs.Laid.{table_in, row_found};
ghost use Rattle.content.specs.Parts.{params_in};
ghost use Rattle.content.specs.Parameters.{name_twice};
ghost use Rattle.content.specs.Kinds.{value_type_said};
ghost use Rattle.content.specs.Reading.{room_for_lines};
ghost use Rattle.values.specs.Base64.{binary_fits, text_sent};
ghost use Rattle.values.specs.Coded.{sort_said};
ghost use Rattle.conversion_theory.specs.Property.{type_of, code_of, many_of, values_sent};
ghost use Rattle.jcal_values.specs.Attempts.{AttemptedIn};
ghost use Rattle.jcal_properties.specs.Passed.{params_tested};
ghost use Rattle.jcal_properties.specs.Placed.{Fronts, PlacesValues, Places, line_read};
ghost use Rattle.jcal_properties.specs.Shown.{named_type, front_text};

use crate::names::put_name;
use content::{NoType, ROOM_FOR_LINES, is_encoded, name_twice, parts_of, put_params, value_type};
use jcal_values::{put_decoded, put_tested};
use octets::{Refusal, put, put_all};
use types::{Listing, ValueType, code_named, find, known_code, put_type_name};
use values::base64::is_decoded;
use values::{Sort, sort_of};

// Of a property that is written up to its values: the code of its type, whether its value is decoded, and the place behind.
// The code is an octet, 0 for none, from `code_named` and `known_code` on to `is_decoded` and `sort_of`, which promise something of every octet.
#[derive(Clone, Copy)]
struct Fronted {
    code: u8,
    decodes: bool,
    to: usize,
}

// The code of a name's default type.
fn default_code(found: Option<Listing>) -> u8
    ensures { result ≡ code_of (row_found found) none }
{
    match found {
        Some(row) => known_code(row.code),
        None => 0,
    }
}

// The code of the type: VALUE's, else the name's default.
fn code_of(found: Option<Listing>, kind: Result<Option<&[u8]>, NoType>) -> u8
    ensures { result ≡ code_of (row_found found) (named_type (value_type_said (λ t. t.now) kind.entry)) }
{
    match kind {
        Ok(None) => default_code(found),
        Ok(Some(name)) => code_named(name),
        Err(NoType) => default_code(found),
    }
}

// One or many belongs to the name; an unlisted one may have many.
fn is_many(found: Option<Listing>) -> bool
    ensures { result ≡ many_of (row_found found) }
{
    match found {
        Some(row) => row.many,
        None => true,
    }
}

// Number 8: binary has ENCODING=BASE64.
#[tactic(auto, unfolding(values::specs::Base64::binary_fits, types::specs::Coded::type_code))]
fn binary_fits(code: u8, encoded: bool) -> bool
    ensures { result ≡ binary_fits code encoded }
{
    code != ValueType::Binary.code() || encoded
}

// Number 7: no parameter name stands twice, and VALUE names a type where it stands.
fn params_fit(params: &[u8], kind: Result<Option<&[u8]>, NoType>) -> bool
    ensures { pick result (accepted tt) (refused 7) ≡ params_tested (name_twice (params_in params.now)) (value_type_said (λ t. t.now) kind.entry) }
{
    if name_twice(params) {
        return false;
    }
    kind.is_ok()
}

// Writes a property up to its type, where its value is decoded or not.
fn put_front(name: &[u8], params: &[u8], decodes: bool, out: &mut [u8], at: usize) -> usize
    ensures { Wrote (pen out.old at) (front_text name.now decodes (params_in params.now)) (pen out.new result) }
{
    let a = put(out, at, b'[');
    let b = put_name(out, a, name);
    let c = put(out, b, b',');
    let d = put_params(out, c, params, decodes);
    put(out, d, b',')
}

// Writes the name of a default type.
fn put_default(found: Option<Listing>, out: &mut [u8], at: usize) -> usize
    ensures { Wrote (pen out.old at) (print_string (type_of (row_found found) none)) (pen out.new result) }
{
    match found {
        Some(row) => {
            let a = put(out, at, b'"');
            let b = put_type_name(out, a, row.code);
            put(out, b, b'"')
        }
        None => put_all(out, at, b"\"unknown\""),
    }
}

// Writes the name of the type.
fn put_type(
    found: Option<Listing>,
    kind: Result<Option<&[u8]>, NoType>,
    out: &mut [u8],
    at: usize,
) -> usize
    ensures { Wrote (pen out.old at) (print_string (type_of (row_found found) (named_type (value_type_said (λ t. t.now) kind.entry)))) (pen out.new result) }
{
    match kind {
        Ok(None) => put_default(found, out, at),
        Ok(Some(name)) => put_name(out, at, name),
        Err(NoType) => put_default(found, out, at),
    }
}

// Tests and writes the values of a value, which is decoded first where it is sent as base64.
fn put_sent(
    found: Option<Listing>,
    decodes: bool,
    sort: Sort,
    value: &[u8],
    out: &mut [u8],
    at: usize,
) -> Option<usize>
    requires { length value.now ≤ room_for_lines }
    ensures { AttemptedIn (many_of (row_found found)) (sort_said sort) (text_sent decodes value.now) (pen out.old at) out.new result }
{
    let many = is_many(found);
    if decodes {
        return put_decoded(out, at, sort, many, value);
    }
    put_tested(out, at, sort, many, value)
}

// Tests the values by 9, writes them, and closes the property.
fn place_values(
    found: Option<Listing>,
    code: u8,
    decodes: bool,
    name: &[u8],
    value: &[u8],
    out: &mut [u8],
    at: usize,
) -> Result<usize, Refusal>
    requires { length value.now ≤ room_for_lines }
    ensures { PlacesValues (values_sent decodes (lower name.now) code (many_of (row_found found)) value.now) (pen out.old at) out.new result }
{
    let sort = sort_of(name, code);
    match put_sent(found, decodes, sort, value, out, at) {
        Some(q) => Ok(put(out, q, b']')),
        None => Err(Refusal::BadValue),
    }
}

// Tests a property without parameters by 8, and writes it up to its values.
fn front_plain(
    found: Option<Listing>,
    name: &[u8],
    out: &mut [u8],
    at: usize,
) -> Result<Fronted, Refusal>
    ensures { Fronts (row_found found) name.now [] (pen out.old at) out.new result }
{
    let code = default_code(found);
    if !binary_fits(code, false) {
        return Err(Refusal::BadEncoding);
    }
    let a = put(out, at, b'[');
    let b = put_name(out, a, name);
    let c = put_all(out, b, b",{},");
    let to = put_default(found, out, c);
    Ok(Fronted {
        code,
        decodes: false,
        to,
    })
}

// Tests a property with parameters by 7 and 8, and writes it up to its values.
fn front_given(
    found: Option<Listing>,
    name: &[u8],
    params: &[u8],
    out: &mut [u8],
    at: usize,
) -> Result<Fronted, Refusal>
    ensures { Fronts (row_found found) name.now (params_in params.now) (pen out.old at) out.new result }
{
    let kind = value_type(params);
    if !params_fit(params, kind) {
        return Err(Refusal::BadParameter);
    }
    let code = code_of(found, kind);
    let encoded = is_encoded(params);
    if !binary_fits(code, encoded) {
        return Err(Refusal::BadEncoding);
    }
    let decodes = is_decoded(code, encoded);
    let a = put_front(name, params, decodes, out, at);
    let to = put_type(found, kind, out, a);
    Ok(Fronted { code, decodes, to })
}

// Tests a property by 7 and 8, and writes it up to its values.
fn front(
    found: Option<Listing>,
    name: &[u8],
    params: &[u8],
    out: &mut [u8],
    at: usize,
) -> Result<Fronted, Refusal>
    ensures { Fronts (row_found found) name.now (params_in params.now) (pen out.old at) out.new result }
{
    if params.len() == 0 {
        return front_plain(found, name, out, at);
    }
    front_given(found, name, params, out, at)
}

// Tests a property by 7, 8 and 9, and writes it; a line that a buffer of lines has no room for is refused by 1.
pub fn place_property(line: &[u8], rows: &[u8], out: &mut [u8], at: usize) -> Result<usize, Refusal>
    ensures { Places (line_read (table_in rows.now) line.now) (pen out.old at) out.new result }
{
    if ROOM_FOR_LINES < line.len() {
        return Err(Refusal::TextTooLong);
    }
    let parts = parts_of(line);
    let n = parts.name;
    let colon = parts.colon;
    let v = parts.value;
    let found = find(rows, &line[0..n]);
    let Fronted { code, decodes, to } = front(found, &line[0..n], &line[n..colon], out, at)?;
    place_values(found, code, decodes, &line[0..n], &line[v..], out, to)
}

// Tests a property by 7, 8 and 9 alone: it is written where there is no room.
pub fn test_property(line: &[u8], rows: &[u8]) -> Result<(), Refusal>
    ensures { answered result ≡ then (line_read (table_in rows.now) line.now) (λ _. accepted tt) }
{
    let mut none = [0u8; 1];
    place_property(line, rows, &mut none, 0)?;
    Ok(())
}
