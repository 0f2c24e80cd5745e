// Whether the keys of an object are all different. A few are compared with all keys behind them; many are found again by a table of slots.
ghost use Rattle.std.specs.Prelude.{◌≡◌};
ghost use Rattle.octets.specs.Slots.{Blank};
ghost use Rattle.tape.specs.Sound.{has_key, distinct_keys};
ghost use Rattle.tape.specs.Decode.{members_at};

use super::END;
use super::walking::{behind, tag, text_at};
use octets::{Case, Entering, SLOTS, enter, same};

// Keys that are compared with all behind them.
const FEW: usize = 8;

// Whether the key is one of those from `at` to the end of the object.
fn has_key(t: &[u8], at: usize, key: &[u8]) -> bool
    ensures { result ≡ has_key key.now (members_at t.now at) }
{
    let mut i = at;
    loop {
        if tag(t, i) == END {
            return false;
        }
        let k = text_at(t, i);
        let e = behind(t, k.next);
        if same(key, &t[k.from..k.to]) {
            return true;
        }
        i = e;
    }
}

// Whether the keys from `at` on are all different; the table is free.
fn all_new(t: &[u8], at: usize, table: &mut [usize]) -> bool
    requires { Blank table.old }
    ensures { result ≡ distinct_keys (members_at t.now at) }
{
    let mut i = at;
    loop {
        if tag(t, i) == END {
            return true;
        }
        let k = text_at(t, i);
        let e = behind(t, k.next);
        match enter(t, k.from, k.to, Case::Exact, table) {
            Entering::Seen => return false,
            Entering::Stored => {}
            Entering::Full => {
                if has_key(t, e, &t[k.from..k.to]) {
                    return false;
                }
            }
        }
        i = e;
    }
}

// Whether the keys from `at` on are all different, by a table.
fn many_distinct(t: &[u8], at: usize) -> bool
    ensures { result ≡ distinct_keys (members_at t.now at) }
{
    let mut table = [0usize; SLOTS];
    all_new(t, at, &mut table)
}

// Whether the keys from `at` on are all different: `few` of them are compared with all keys behind them, the rest by a table.
// The call of itself comes before `has_key`, so that it is no tail call: a recursion, and the table's room with it, is not inlined.
fn few_distinct(t: &[u8], at: usize, few: usize) -> bool
    ensures { result ≡ distinct_keys (members_at t.now at) }
{
    if tag(t, at) == END {
        return true;
    }
    if few == 0 {
        return many_distinct(t, at);
    }
    let k = text_at(t, at);
    let e = behind(t, k.next);
    few_distinct(t, e, few - 1) && !has_key(t, e, &t[k.from..k.to])
}

// Whether the keys from `at` to the end of the object are all different.
pub fn keys_distinct(t: &[u8], at: usize) -> bool
    ensures { result ≡ distinct_keys (members_at t.now at) }
{
    if tag(t, at) == END {
        return true;
    }
    few_distinct(t, at, FEW)
}
