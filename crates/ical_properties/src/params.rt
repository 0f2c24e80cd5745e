// Parameters on the tape: numbers 7 and 8.
ghost use Rattle.std.specs.Prelude.{◌≡◌};
ghost use Rattle.octets.specs.Basics.{octets, ◌and◌, all, same};
ghost use Rattle.octets.specs.Classes.{text_octet};
ghost use Rattle.content.specs.Parameters.{is_base64, is_encoded, may_return};
ghost use Rattle.json_text.specs.Tape.{tag_string};
ghost use Rattle.tape.specs.Decode.{tag_at, value_at, members_at};
ghost use Rattle.conversion_theory.specs.Skeleton.{values_from, params_from};

use super::places::into;
use octets::{all_text, same, same_name};
use tape::{ARRAY, END, STRING, behind, tag, text_at};

// No control character but tab and newline in the values of the parameter at `at`, which is no string.
fn are_texts(t: &[u8], at: usize) -> bool
    requires { (tag_at t.now at ≡ tag_string) → ⊥ }
    ensures { result ≡ all (all text_octet) (values_from (value_at t.now at)) }
{
    let mut i = into(t, at, ARRAY);
    loop {
        if tag(t, i) == END {
            return true;
        }
        let x = text_at(t, i);
        if !all_text(&t[x.from..x.to]) {
            return false;
        }
        i = x.next;
    }
}

// The parameters from `at` on may stand in a content line.
pub fn may_return(t: &[u8], at: usize) -> bool
    ensures { result ≡ all may_return (params_from (members_at t.now at)) }
{
    let mut i = at;
    loop {
        if tag(t, i) == END {
            return true;
        }
        let k = text_at(t, i);
        let v = k.next;
        if same(&t[k.from..k.to], b"value") {
            return false;
        }
        if tag(t, v) == STRING {
            let x = text_at(t, v);
            if !all_text(&t[x.from..x.to]) {
                return false;
            }
            i = x.next;
        } else {
            if !are_texts(t, v) {
                return false;
            }
            i = behind(t, v);
        }
    }
}

// BASE64 is the one value of the parameter at `at`.
fn is_base64(t: &[u8], at: usize) -> bool
    ensures { result ≡ is_base64 (values_from (value_at t.now at)) }
{
    if tag(t, at) == STRING {
        let x = text_at(t, at);
        return same_name(&t[x.from..x.to], b"BASE64");
    }
    let a = into(t, at, ARRAY);
    if tag(t, a) == END {
        return false;
    }
    let x = text_at(t, a);
    if tag(t, x.next) != END {
        return false;
    }
    same_name(&t[x.from..x.to], b"BASE64")
}

// The parameter of this name whose value stands at `at` is ENCODING=BASE64.
fn encodes(t: &[u8], name: &[u8], at: usize) -> bool
    ensures { result ≡ (same name.now (octets "encoding") and is_base64 (values_from (value_at t.now at))) }
{
    same(name, b"encoding") && is_base64(t, at)
}

// ENCODING=BASE64 is among the parameters from `at` on.
pub fn any_encodes(t: &[u8], at: usize) -> bool
    ensures { result ≡ is_encoded (params_from (members_at t.now at)) }
{
    let mut i = at;
    loop {
        if tag(t, i) == END {
            return false;
        }
        let k = text_at(t, i);
        let v = k.next;
        if encodes(t, &t[k.from..k.to], v) {
            return true;
        }
        i = behind(t, v);
    }
}
