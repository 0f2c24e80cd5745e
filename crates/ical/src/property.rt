// Properties tested and written in one walk: numbers 7, 8 and 9.
ghost use Rattle.std.specs.Prelude.{◌≡◌, true, [], ◌∷◌, map, ◌≤◌, length};
ghost use Rattle.octets.specs.Classes.{lower};
ghost use Rattle.octets.specs.Optional.{then?, is_some};
ghost use Rattle.types.specs.Laid.{table_in};
ghost use Rattle.json_text.specs.Tree.{elements};
ghost use Rattle.tape.specs.Decode.{value_at, list_at};
ghost use Rattle.content.specs.Folding.{folding};
ghost use Rattle.values.specs.Base64.{text_sent};
ghost use Rattle.values.specs.Coded.{sort_said};
ghost use Rattle.conversion_theory.specs.Skeleton.{is_list_of, is_property, property_from};
ghost use Rattle.conversion_theory.specs.ToIcal.{checked_all, property_line};
ghost use Rattle.jcal_values.specs.Attempts.{values_read};
ghost use Rattle.ical.specs.Writes.{is_taken, ValuesWritten};
ghost use Rattle.ical.specs.Converts.{checked_in, Converts};

use super::lines::write_head;
use content::{Folder, end_line};
use ical_properties::{Ruling, any_encodes, encoding_fits, may_return, property_parts, ruling_of};
use ical_values::write_tested;
use jcal_values::holds_values;
use octets::Refusal;
use tape::{END, after, tag, text_at};
use values::base64::{decode, is_decoded};
use values::{Sort, sort_of};

// Whether the value that is encoded in `raw` is of the sort, or several where there may be many; it is decoded into `rule`.
fn holds_decoded(sort: Sort, many: bool, raw: &[u8], rule: &mut [u8]) -> bool
    requires { length raw.now ≤ length rule.old }
    ensures { result ≡ is_some (then? (text_sent true raw.now) (values_read many (sort_said sort))) }
{
    let d = decode(raw, rule);
    match d {
        Some(n) => holds_values(sort, many, &rule[0..n]),
        None => false,
    }
}

// Whether the first value at `at`, decoded where it is encoded, is what its name takes without VALUE, where it must be.
fn is_taken(t: &[u8], name: &[u8], at: usize, k: Ruling, encoded: bool, rule: &mut [u8]) -> bool
    requires { length t.now ≤ length rule.old }
    ensures { result ≡ is_taken k (lower name.now) encoded (list_at t.now at) }
{
    if !k.taken {
        return true;
    }
    let sort = sort_of(name, k.code);
    let x = text_at(t, at);
    let raw = &t[x.from..x.to];
    if is_decoded(k.code, encoded) {
        return holds_decoded(sort, k.many, raw, rule);
    }
    holds_values(sort, k.many, raw)
}

// Number 9: writes the values from `at` on, if they are what the ruling asks for.
fn write_stood(
    out: &mut [u8],
    p: Folder,
    t: &[u8],
    name: &[u8],
    at: usize,
    k: Ruling,
    encoded: bool,
    rule: &mut [u8],
) -> Option<(usize, Folder)>
    requires { length t.now ≤ length rule.old }
    ensures { ValuesWritten k (lower name.now) encoded t.now at (folding out.old p) out.new result }
{
    if !is_taken(t, name, at, k, encoded, rule) {
        return None;
    }
    write_tested(out, p, t, at, k.sort, k.many, rule)
}

// The content line of the property at `at`: the place behind the property, and that of the next line; or why it is refused.
fn convert_property(
    t: &[u8],
    at: usize,
    rows: &[u8],
    out: &mut [u8],
    to: usize,
    rule: &mut [u8],
) -> Result<(usize, usize), Refusal>
    requires { (is_property (value_at t.now at) ≡ true) × (length t.now ≤ length rule.old) }
    ensures { Converts t.now at (checked_in (table_in rows.now) (property_from (value_at t.now at)))
        out.old to (property_line (table_in rows.now) (property_from (value_at t.now at)) ∷ []) out.new result }
{
    let p = property_parts(t, at);
    if !may_return(t, p.params) {
        return Err(Refusal::BadParameter);
    }
    let name = &t[p.name.from..p.name.to];
    let kind = &t[p.kind.from..p.kind.to];
    let k = ruling_of(rows, name, kind);
    let encoded = any_encodes(t, p.params);
    if !encoding_fits(k.code, k.taken, encoded) {
        return Err(Refusal::BadEncoding);
    }
    let start = Folder { at: to, column: 0 };
    let h = write_head(out, start, name, k.shown, kind, t, p.params);
    let (e, q) = write_stood(out, h, t, name, p.values, k, encoded, rule).ok_or(Refusal::BadValue)?;
    Ok((e, end_line(out, q)))
}

// The content lines of the properties of the array at `at`, up to the first in fault.
pub(crate) fn convert_properties(
    t: &[u8],
    at: usize,
    rows: &[u8],
    out: &mut [u8],
    to: usize,
    rule: &mut [u8],
) -> Result<(usize, usize), Refusal>
    requires { (is_list_of is_property (value_at t.now at) ≡ true) × (length t.now ≤ length rule.old) }
    ensures { Converts t.now at (checked_all (table_in rows.now) (map property_from (elements (value_at t.now at))))
        out.old to (map (property_line (table_in rows.now)) (map property_from (elements (value_at t.now at)))) out.new result }
{
    let mut i = after(t, at);
    let mut q = to;
    loop {
        if tag(t, i) == END {
            return Ok((after(t, i), q));
        }
        let (e, n) = convert_property(t, i, rows, out, q, rule)?;
        i = e;
        q = n;
    }
}
