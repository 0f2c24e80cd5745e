// Whether a parameter name stands twice. A few are compared with all names behind them; many are found again by a table of slots.
ghost use Rattle.std.specs.Prelude.{◌≡◌, map};
ghost use Rattle.octets.specs.Basics.{among};
ghost use Rattle.octets.specs.Classes.{lower};
ghost use Rattle.octets.specs.Slots.{Blank};
ghost use Rattle.content.specs.Parameters.{name_twice};
ghost use Rattle.content.specs.Line.{name_of};
ghost use Rattle.content.specs.Parts.{params_in};

use crate::parts::{next_param, param_at};
use crate::scan::next_bare;
use octets::{Case, Entering, SLOTS, enter, same_name};

// Names that are compared with all behind them.
const FEW: usize = 8;

// Whether one of the parameters has this name.
fn has_name(s: &[u8], name: &[u8]) -> bool
    ensures { result ≡ among (lower name.now) (map name_of (params_in s.now)) }
{
    let mut rest = s;
    while let Some(p) = next_param(rest) {
        if same_name(name, p.name) {
            return true;
        }
        rest = p.rest;
    }
    false
}

// Whether a name of the parameters stands twice; the table is free. It holds places in the text, so that the walk goes by places.
fn twice_by(s: &[u8], table: &mut [usize]) -> bool
    requires { Blank table.old }
    ensures { result ≡ name_twice (params_in s.now) }
{
    let mut e = next_bare(s, 0, b';', b';');
    while e < s.len() {
        let i = e + 1;
        let p = param_at(s, i);
        match enter(s, i, p.name, Case::Lower, table) {
            Entering::Seen => return true,
            Entering::Stored => {
                e = p.end;
            }
            Entering::Full => {
                if has_name(&s[p.end..], &s[i..p.name]) {
                    return true;
                }
                e = p.end;
            }
        }
    }
    false
}

// Whether a name of the parameters stands twice, by a table.
fn twice_many(s: &[u8]) -> bool
    ensures { result ≡ name_twice (params_in s.now) }
{
    let mut table = [0usize; SLOTS];
    twice_by(s, &mut table)
}

// Whether a name of the parameters stands twice: `few` of them are compared with all names behind them, the rest are found by
// a table. The recursive call comes first: as a tail call it would be inlined, and the table would stand on the stack of every caller.
fn twice_few(s: &[u8], few: usize) -> bool
    ensures { result ≡ name_twice (params_in s.now) }
{
    let Some(p) = next_param(s) else {
        return false;
    };
    if few == 0 {
        return twice_many(s);
    }
    if twice_few(p.rest, few - 1) {
        return true;
    }
    has_name(p.rest, p.name)
}

// Whether a parameter name stands twice.
pub fn name_twice(s: &[u8]) -> bool
    ensures { result ≡ name_twice (params_in s.now) }
{
    twice_few(s, FEW)
}
