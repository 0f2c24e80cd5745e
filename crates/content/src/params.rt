// What the parameters of a content line say. They are given as they stand in the line, each behind a semicolon.
ghost use Rattle.std.specs.Prelude.{◌≡◌, map, false, IfOk, IfSome};
ghost use Rattle.octets.specs.Basics.{single};
ghost use Rattle.content.specs.Parameters.{token, value_type, is_base64, is_encoded};
ghost use Rattle.content.specs.Kinds.{value_type_said};
ghost use Rattle.content.specs.Line.{pieces, param_value};
ghost use Rattle.content.specs.Parts.{StandsIn, params_in};

use crate::parts::{next_param, unquoted};
use crate::scan::next_bare;
use octets::{is_name, same_name};

// There is a VALUE, and it names no type.
#[derive(Clone, Copy)]
pub struct NoType;

// Whether a parameter's values are a single one.
fn is_single(values: &[u8]) -> bool
    ensures { result ≡ single (pieces 44 false values.now) }
{
    values.len() <= next_bare(values, 0, b',', b',')
}

// The type that the values of VALUE name: one token, and not UNKNOWN.
fn type_named(values: &[u8]) -> Result<Option<&[u8]>, NoType>
    ensures said { value_type_said (λ t. t.now) result ≡ token (map param_value (pieces 44 false values.now)) }
    ensures within { IfOk result (λ stated. IfSome stated (λ t. StandsIn values.now t.now)) }
{
    if !is_single(values) {
        return Err(NoType);
    }
    let value = unquoted(values);
    if !is_name(value) {
        return Err(NoType);
    }
    if same_name(value, b"unknown") {
        return Err(NoType);
    }
    Ok(Some(value))
}

// The type that VALUE names, as it stands in the parameters, if there is a VALUE. Of several places that hold its name any may be answered.
pub fn value_type(s: &[u8]) -> Result<Option<&[u8]>, NoType>
    ensures said { value_type_said (λ t. t.now) result ≡ value_type (params_in s.now) }
    ensures within { IfOk result (λ stated. IfSome stated (λ t. StandsIn s.now t.now)) }
{
    let mut rest = s;
    while let Some(p) = next_param(rest) {
        if same_name(p.name, b"value") {
            return type_named(p.values);
        }
        rest = p.rest;
    }
    Ok(None)
}

// Whether a parameter's values are BASE64 alone.
pub(crate) fn is_base64(values: &[u8]) -> bool
    ensures { result ≡ is_base64 (map param_value (pieces 44 false values.now)) }
{
    if !is_single(values) {
        return false;
    }
    same_name(unquoted(values), b"BASE64")
}

// Whether ENCODING is BASE64.
pub fn is_encoded(s: &[u8]) -> bool
    ensures { result ≡ is_encoded (params_in s.now) }
{
    let mut rest = s;
    while let Some(p) = next_param(rest) {
        rest = p.rest;
        if !same_name(p.name, b"encoding") {
            continue;
        }
        if is_base64(p.values) {
            return true;
        }
    }
    false
}
