// A content line and its parameters by the places of their parts.
ghost use Rattle.std.specs.Prelude.{◌≡◌, ◌≤◌, ◌<◌, false, eqb, [], ◌∷◌, length, MatchOption};
ghost use Rattle.octets.specs.Basics.{◌or◌};
ghost use Rattle.content.specs.Line.{unquote};
ghost use Rattle.content.specs.Scan.{until_bare};
ghost use Rattle.content.specs.Parts.{Cut, CutParam, StandsIn, params_in, param_cut};

use crate::scan::next_bare;
use octets::peek;

// The end of the name, the end of the parameters and the start of the value. They are places, and not parts of the line: `Cut` promises where the colon is.
#[derive(Clone, Copy)]
pub struct Parts {
    pub name: usize,
    pub colon: usize,
    pub value: usize,
}

// The end of a parameter's name, the start of its values and their end.
#[derive(Clone, Copy)]
pub struct ParamParts {
    pub name: usize,
    pub values: usize,
    pub end: usize,
}

// A parameter as it stands, and what stands behind it.
#[derive(Clone, Copy)]
pub(crate) struct Param<'a> {
    pub name: &'a [u8],
    pub values: &'a [u8],
    pub rest: &'a [u8],
}

// Finds the parts of a content line; the parameters stand from `name` to `colon`, each behind a semicolon.
pub fn parts_of(line: &[u8]) -> Parts
    ensures { Cut line.now result }
{
    let name = next_bare(line, 0, b';', b':');
    let colon = next_bare(line, name, b':', b':');
    if colon < line.len() {
        return Parts {
            name,
            colon,
            value: colon + 1,
        };
    }
    Parts {
        name,
        colon,
        value: colon,
    }
}

// Finds the parts of the parameter that begins at `at`.
#[inline(always)]
pub(crate) fn param_at(s: &[u8], at: usize) -> ParamParts
    requires { at ≤ length s.now }
    ensures { CutParam s.now at result }
{
    let name = next_bare(s, at, b'=', b';');
    let end = next_bare(s, name, b';', b';');
    if name < end {
        return ParamParts {
            name,
            values: name + 1,
            end,
        };
    }
    ParamParts {
        name,
        values: name,
        end,
    }
}

// The place of the semicolon before the next parameter, or the end. Mostly the text begins with it.
#[inline(always)]
fn next_semicolon(s: &[u8]) -> usize
    ensures { result ≡ length (until_bare (λ c. eqb c 59 or eqb c 59) false s.now) }
{
    if peek(s, 0) == b';' {
        return 0;
    }
    next_bare(s, 0, b';', b';')
}

// The next parameter of some that stand each behind a semicolon; none where there is no more. Called, and not inlined, it took half as much again.
#[inline(always)]
pub(crate) fn next_param(s: &[u8]) -> Option<Param<'_>>
    ensures { MatchOption result (params_in s.now ≡ []) (λ p. (length p.rest.now < length s.now) × (params_in s.now ≡ param_cut p.name.now p.values.now ∷ params_in p.rest.now) × StandsIn s.now p.values.now × StandsIn s.now p.rest.now) }
{
    let e = next_semicolon(s);
    if s.len() <= e {
        return None;
    }
    let p = param_at(s, e + 1);
    Some(Param {
        name: &s[e + 1..p.name],
        values: &s[p.values..p.end],
        rest: &s[p.end..],
    })
}

// A parameter value without the quotes around it.
pub(crate) fn unquoted(v: &[u8]) -> &[u8]
    ensures { result.now ≡ unquote v.now }
{
    let [first, inside @ ..] = v else {
        return v;
    };
    if *first != b'"' {
        return v;
    }
    &inside[..inside.len().saturating_sub(1)]
}
