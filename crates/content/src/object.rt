// The parameters of a content line as a jCal object.
ghost use Rattle.std.specs.Prelude.{◌≡◌, false, [], ◌++◌, map};
ghost use Rattle.octets.specs.Basics.{octets, pick};
ghost use Rattle.octets.specs.Classes.{lower};
ghost use Rattle.octets.specs.Pen.{pen, Wrote};
ghost use Rattle.json_text.specs.Tree.{str, obj, items_of};
ghost use Rattle.json_text.specs.Print.{quoted, print_string, print_key, more_items, print};
ghost use Rattle.content.specs.Line.{pieces, param_value};
ghost use Rattle.content.specs.Carets.{decoded};
ghost use Rattle.content.specs.Parts.{params_in, param_cut};
ghost use Rattle.content.specs.Parameters.{without_value, staying, plain_or, members_of};
ghost use Rattle.content.specs.Object.{left_out, stands_for, octets_read};

use crate::params::is_base64;
use crate::parts::{next_param, unquoted};
use crate::scan::next_bare;
use json_text::put_escaped;
use octets::{Class, lower_octet, peek, put, put_all, run_end, same_name};

// The octet that `c` stands for, where `d` follows it.
fn stands_for(c: u8, d: u8) -> u8
    ensures { result ≡ stands_for c d }
{
    if c != b'^' {
        return c;
    }
    match d {
        b'n' => b'\n',
        b'\'' => b'"',
        _ => c,
    }
}

// The octets that are read for it.
fn taken(c: u8, d: u8) -> usize
    ensures { result ≡ octets_read c d }
{
    if c != b'^' {
        return 1;
    }
    match d {
        b'n' => 2,
        b'^' => 2,
        b'\'' => 2,
        _ => 1,
    }
}

// Writes a value without its quotes, decoded, and the closing quote of its JSON string.
fn put_decoded(out: &mut [u8], at: usize, v: &[u8]) -> usize
    ensures { Wrote (pen out.old at) (quoted (decoded v.now)) (pen out.new result) }
{
    let mut to = at;
    let mut i = 0;
    while i < v.len() {
        let e = run_end(v, i, Class::ParamAsIs);
        let a = put_all(out, to, &v[i..e]);
        if e >= v.len() {
            return put(out, a, b'"');
        }
        let c = v[e];
        let d = peek(v, e + 1);
        to = put_escaped(out, a, stands_for(c, d));
        i = e + taken(c, d);
    }
    put(out, to, b'"')
}

// Writes a parameter value as a JSON string.
fn put_value(out: &mut [u8], at: usize, v: &[u8]) -> usize
    ensures { Wrote (pen out.old at) (print_string (param_value v.now)) (pen out.new result) }
{
    let a = put(out, at, b'"');
    put_decoded(out, a, unquoted(v))
}

// Writes further values, each behind a comma, and the closing bracket.
fn put_more(out: &mut [u8], at: usize, values: &[u8]) -> usize
    ensures { Wrote (pen out.old at) (more_items (items_of (map str (map param_value (pieces 44 false values.now))))) (pen out.new result) }
{
    let mut rest = values;
    let mut to = at;
    loop {
        let e = next_bare(rest, 0, b',', b',');
        let a = put(out, to, b',');
        let b = put_value(out, a, &rest[..e]);
        if e >= rest.len() {
            return put(out, b, b']');
        }
        to = b;
        rest = &rest[e + 1..];
    }
}

// Writes the values of a parameter: one as a string, several as an array.
fn put_values(out: &mut [u8], at: usize, values: &[u8]) -> usize
    ensures { Wrote (pen out.old at) (print (plain_or (map str (map param_value (pieces 44 false values.now))))) (pen out.new result) }
{
    let e = next_bare(values, 0, b',', b',');
    if e >= values.len() {
        return put_value(out, at, values);
    }
    let a = put(out, at, b'[');
    let b = put_value(out, a, &values[..e]);
    put_more(out, b, &values[e + 1..])
}

// Writes a name in lowercase as a key.
fn put_key(out: &mut [u8], at: usize, name: &[u8]) -> usize
    ensures { Wrote (pen out.old at) (print_key (lower name.now)) (pen out.new result) }
{
    let mut to = put(out, at, b'"');
    for &c in name {
        to = put_escaped(out, to, lower_octet(c));
    }
    put_all(out, to, b"\":")
}

// Writes a comma behind an earlier member.
fn put_comma(out: &mut [u8], at: usize, begun: bool) -> usize
    ensures { Wrote (pen out.old at) (pick begun (octets ",") []) (pen out.new result) }
{
    if begun {
        return put(out, at, b',');
    }
    at
}

// Writes a parameter as a member.
fn put_member(out: &mut [u8], at: usize, begun: bool, name: &[u8], values: &[u8]) -> usize
    ensures { Wrote (pen out.old at) (pick begun (octets ",") [] ++ (print_key (lower name.now) ++ print (plain_or (map str (map param_value (pieces 44 false values.now)))))) (pen out.new result) }
{
    let a = put_comma(out, at, begun);
    let b = put_key(out, a, name);
    put_values(out, b, values)
}

// Whether a parameter is left out: VALUE is, and ENCODING=BASE64 where the value is decoded.
fn is_left_out(name: &[u8], values: &[u8], decodes: bool) -> bool
    ensures { result ≡ left_out decodes (param_cut name.now values.now) }
{
    if same_name(name, b"value") {
        return true;
    }
    if !decodes {
        return false;
    }
    if !same_name(name, b"encoding") {
        return false;
    }
    is_base64(values)
}

// Writes the parameters as an object, without VALUE, and without ENCODING=BASE64 where the value is decoded.
pub fn put_params(out: &mut [u8], at: usize, s: &[u8], decodes: bool) -> usize
    ensures { Wrote (pen out.old at) (print (obj (members_of (staying decodes (without_value (params_in s.now)))))) (pen out.new result) }
{
    let mut to = put(out, at, b'{');
    let mut begun = false;
    let mut rest = s;
    while let Some(p) = next_param(rest) {
        rest = p.rest;
        if is_left_out(p.name, p.values, decodes) {
            continue;
        }
        to = put_member(out, to, begun, p.name, p.values);
        begun = true;
    }
    put(out, to, b'}')
}
