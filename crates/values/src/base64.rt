// Base64 (RFC 4648 4): the text of a value that is sent encoded.
ghost use Rattle.std.specs.Prelude.{◌≡◌, true, [], ◌+◌, ◌%◌, ◌≤◌, ◌<◌, leb, length, take};
ghost use Rattle.octets.specs.Utf8.{clean};
ghost use Rattle.values.specs.Base64.{is_decoded, base64_of, text_sent};
ghost use Rattle.values.specs.Decoding.{entry, decoded_behind, DecodedAs};

use crate::simple::before_padding;
use octets::{all_plain, is_utf8};
use types::ValueType;

// Whether the value is decoded: it has ENCODING=BASE64, and its type is one of the fourteen but binary.
// The code is an octet, since the definition `is_decoded` speaks of every one, those beyond the fourteen too.
#[tactic(auto, unfolding(crate::specs::Base64::is_decoded, types::specs::Coded::type_code))]
pub fn is_decoded(code: u8, encoded: bool) -> bool
    ensures { result ≡ is_decoded code encoded }
{
    code != 0 && code != ValueType::Binary.code() && encoded
}

// For each octet of the alphabet its six bits, and 255 for any other.
static SEXTETS: [u8; 256] = *b"\xff\xff\xff\xff\xff\xff\xff\xff\xff\xff\xff\xff\xff\xff\xff\xff\
    \xff\xff\xff\xff\xff\xff\xff\xff\xff\xff\xff\xff\xff\xff\xff\xff\
    \xff\xff\xff\xff\xff\xff\xff\xff\xff\xff\xff\x3e\xff\xff\xff\x3f\
    \x34\x35\x36\x37\x38\x39\x3a\x3b\x3c\x3d\xff\xff\xff\xff\xff\xff\
    \xff\x00\x01\x02\x03\x04\x05\x06\x07\x08\x09\x0a\x0b\x0c\x0d\x0e\
    \x0f\x10\x11\x12\x13\x14\x15\x16\x17\x18\x19\xff\xff\xff\xff\xff\
    \xff\x1a\x1b\x1c\x1d\x1e\x1f\x20\x21\x22\x23\x24\x25\x26\x27\x28\
    \x29\x2a\x2b\x2c\x2d\x2e\x2f\x30\x31\x32\x33\xff\xff\xff\xff\xff\
    \xff\xff\xff\xff\xff\xff\xff\xff\xff\xff\xff\xff\xff\xff\xff\xff\
    \xff\xff\xff\xff\xff\xff\xff\xff\xff\xff\xff\xff\xff\xff\xff\xff\
    \xff\xff\xff\xff\xff\xff\xff\xff\xff\xff\xff\xff\xff\xff\xff\xff\
    \xff\xff\xff\xff\xff\xff\xff\xff\xff\xff\xff\xff\xff\xff\xff\xff\
    \xff\xff\xff\xff\xff\xff\xff\xff\xff\xff\xff\xff\xff\xff\xff\xff\
    \xff\xff\xff\xff\xff\xff\xff\xff\xff\xff\xff\xff\xff\xff\xff\xff\
    \xff\xff\xff\xff\xff\xff\xff\xff\xff\xff\xff\xff\xff\xff\xff\xff\
    \xff\xff\xff\xff\xff\xff\xff\xff\xff\xff\xff\xff\xff\xff\xff\xff";

// What the table has for an octet: 255, and no None, outside the alphabet, as the definition `entry` says.
fn sextet_of(c: u8) -> u32
    ensures { (result ≡ entry c) × (result ≤ 255) }
{
    SEXTETS[c as usize] as u32
}

// Decodes what is left behind the whole groups, nothing or two or three octets, to the place behind the octets that are decoded already.
fn decode_rest(rest: &[u8], out: &mut [u8], to: usize) -> Option<usize>
    requires rest_len_bound { (length rest.now < 4) × ((length rest.now ≡ 1) → ⊥) }
    requires rest_in_bounds { to + length rest.now ≤ length out.old }
    ensures { DecodedAs true (decoded_behind (take to out.old) rest.now) out.new result }
{
    if rest.len() == 0 {
        return Some(to);
    }
    let a = sextet_of(rest[0]);
    let b = sextet_of(rest[1]);
    if a + b > 126 {
        return None;
    }
    out[to] = (a * 4 + b / 16) as u8;
    if rest.len() == 2 {
        return Some(to + 1);
    }
    let c = sextet_of(rest[2]);
    if c > 63 {
        return None;
    }
    out[to + 1] = (b % 16 * 16 + c / 4) as u8;
    Some(to + 2)
}

// Decodes octets without padding, group by group; an octet outside the alphabet makes the sum of a group's entries exceed 4 * 63.
fn decode_groups(raw: &[u8], out: &mut [u8]) -> Option<usize>
    requires fact { (length raw.now % 4 ≡ 1) → ⊥ }
    requires raw_in_bounds { length raw.now ≤ length out.old }
    ensures { DecodedAs true (decoded_behind [] raw.now) out.new result }
{
    let groups = raw.len() / 4;
    for k in 0..groups {
        let i = 4 * k;
        let a = sextet_of(raw[i]);
        let b = sextet_of(raw[i + 1]);
        let c = sextet_of(raw[i + 2]);
        let d = sextet_of(raw[i + 3]);
        if a + b + c + d > 252 {
            return None;
        }
        let to = 3 * k;
        out[to] = (a * 4 + b / 16) as u8;
        out[to + 1] = (b % 16 * 16 + c / 4) as u8;
        out[to + 2] = (c % 4 * 64 + d) as u8;
    }
    decode_rest(&raw[4 * groups..], out, 3 * groups)
}

// Decodes a value by binary's own rule: whole groups of four, with at most two paddings at the end.
fn decode_binary(raw: &[u8], out: &mut [u8]) -> Option<usize>
    requires { length raw.now ≤ length out.old }
    ensures { DecodedAs true (base64_of raw.now) out.new result }
{
    if raw.len() % 4 != 0 {
        return None;
    }
    decode_groups(before_padding(raw), out)
}

// UTF-8 without control characters but tab.
fn is_clean(s: &[u8]) -> bool
    ensures { result ≡ clean s.now }
{
    is_utf8(s) && all_plain(s)
}

// The text of a value that is sent as base64, decoded into a buffer that is at least as long, and how many octets at its front that is; they are tested as a line's
// are. It is none where the value does not stand, or the buffer is too short.
pub fn decode(raw: &[u8], out: &mut [u8]) -> Option<usize>
    ensures { DecodedAs (leb (length raw.now) (length out.old)) (text_sent true raw.now) out.new result }
{
    if out.len() < raw.len() {
        return None;
    }
    let count = decode_binary(raw, out)?;
    if is_clean(&out[..count]) {
        Some(count)
    } else {
        None
    }
}
