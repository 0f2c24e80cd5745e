// What a property's row and type say.
ghost use Rattle.std.specs.Prelude.{◌≡◌, false};
ghost use Rattle.octets.specs.Classes.{lower};
ghost use Rattle.octets.specs.Basics.{octets};
ghost use Rattle.types.specs.Table.{find};
ghost use Rattle.types.specs.Laid.{table_in};
ghost use Rattle.conversion_theory.specs.Return.{is_unknown};
ghost use Rattle.ical_properties.specs.Ruled.{Rules, fits_by};

use super::Ruling;
use types::{ValueType, code_named, find, is_unknown, known_code};
use values::base64::is_decoded;
use values::{Sort, sort_of};

// Number 8: binary has ENCODING=BASE64; another of the fourteen types has it only where an "unknown" value must be what its name takes.
#[tactic(auto, unfolding(crate::specs::Ruled::fits_by, values::specs::Base64::binary_fits, values::specs::Base64::is_decoded, types::specs::Coded::type_code))]
pub fn encoding_fits(code: u8, taken: bool, encoded: bool) -> bool
    ensures { result ≡ fits_by code taken encoded }
{
    if code == ValueType::Binary.code() {
        return encoded;
    }
    taken || !is_decoded(code, encoded)
}

// The ruling of an "unknown" value.
fn unknown_ruling(rows: &[u8], name: &[u8]) -> Ruling
    ensures { Rules (find (table_in rows.now) name.now) (lower name.now) (octets "unknown") result }
{
    let f = find(rows, name);
    match f {
        Some(row) => Ruling {
            code: known_code(row.code),
            many: row.many,
            sort: Sort::Plain,
            shown: false,
            taken: true,
        },
        None => Ruling {
            code: 0,
            many: true,
            sort: Sort::Plain,
            shown: false,
            taken: false,
        },
    }
}

// The ruling of a value whose type is stated.
fn stated_ruling(rows: &[u8], name: &[u8], kind: &[u8]) -> Ruling
    requires { is_unknown (lower kind.now) ≡ false }
    ensures { Rules (find (table_in rows.now) name.now) (lower name.now) (lower kind.now) result }
{
    let f = find(rows, name);
    let c = code_named(kind);
    let s = sort_of(name, c);
    match f {
        Some(row) => Ruling {
            code: c,
            many: row.many,
            sort: s,
            shown: row.code != c,
            taken: false,
        },
        None => Ruling {
            code: c,
            many: true,
            sort: s,
            shown: true,
            taken: false,
        },
    }
}

// What the table says of a property with this name and type, each in either case.
pub fn ruling_of(rows: &[u8], name: &[u8], kind: &[u8]) -> Ruling
    ensures { Rules (find (table_in rows.now) name.now) (lower name.now) (lower kind.now) result }
{
    if is_unknown(kind) {
        return unknown_ruling(rows, name);
    }
    stated_ruling(rows, name, kind)
}
