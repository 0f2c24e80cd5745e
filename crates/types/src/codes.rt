// The types' names and codes.
ghost use Rattle.std.specs.Prelude.{◌≡◌, [], map, get_or};
ghost use Rattle.octets.specs.Basics.{octets, same};
ghost use Rattle.octets.specs.Classes.{lower};
ghost use Rattle.octets.specs.Pen.{pen, Wrote};
ghost use Rattle.types.specs.Codes.{code_named, type_name, type_splits};

use crate::kinds::ValueType::{
    self, Binary, Boolean, CalAddress, Date, DateTime, Duration, Float, Integer, Period, Recur,
    Text, Time, Uri, UtcOffset,
};
use crate::table::{Row, first_of, is_named};
use octets::put_all;

// The fourteen types as rows.
static TYPES: [Row; 14] = [
    (b"BINARY", Binary, false),
    (b"BOOLEAN", Boolean, false),
    (b"CAL-ADDRESS", CalAddress, false),
    (b"DATE", Date, false),
    (b"DATE-TIME", DateTime, false),
    (b"DURATION", Duration, false),
    (b"FLOAT", Float, false),
    (b"INTEGER", Integer, false),
    (b"PERIOD", Period, false),
    (b"RECUR", Recur, false),
    (b"TEXT", Text, false),
    (b"TIME", Time, false),
    (b"URI", Uri, false),
    (b"UTC-OFFSET", UtcOffset, false),
];

// The code of a type's name in either case; 0 for a name outside the fourteen.
// An octet and no `ValueType`: `sort_of`, `is_decoded` and `encoding_fits`, which it goes to, promise something of every octet.
pub fn code_named(name: &[u8]) -> u8
    ensures { result ≡ code_named (lower name.now) }
{
    match first_of(&TYPES, name) {
        Some(row) => row.code,
        None => 0,
    }
}

// The code of a type that rows name; 0 for a code outside the fourteen, which no row that is read has. An octet, as `code_named` answers.
pub fn known_code(code: u8) -> u8
    ensures { result ≡ code_named (type_name code) }
{
    if 14 < code { 0 } else { code }
}

// Whether the values of a type split at commas, by its code, for which any octet may stand: one outside the fourteen has no values that split.
pub fn does_split(code: u8) -> bool
    ensures { result ≡ type_splits code }
{
    match ValueType::of_code(code) {
        Some(kind) => kind.splits(),
        None => false,
    }
}

// "unknown", in either case.
pub fn is_unknown(name: &[u8]) -> bool
    ensures { result ≡ same (lower name.now) (octets "unknown") }
{
    is_named(b"UNKNOWN", name)
}

// The names by their codes; none at 0.
static NAMES: [&[u8]; 15] = [
    b"",
    b"binary",
    b"boolean",
    b"cal-address",
    b"date",
    b"date-time",
    b"duration",
    b"float",
    b"integer",
    b"period",
    b"recur",
    b"text",
    b"time",
    b"uri",
    b"utc-offset",
];

// The name at a place among some; no octets where there is none.
fn name_at<'a>(names: &[&'a [u8]], i: usize) -> &'a [u8]
    ensures { result.now ≡ get_or (map (λ n. n.now) names.now) i [] }
{
    match names.get(i) {
        Some(name) => name,
        None => b"",
    }
}

// Writes the name of a code; nothing where it has none.
pub fn put_type_name(out: &mut [u8], at: usize, code: u8) -> usize
    ensures { Wrote (pen out.old at) (type_name code) (pen out.new result) }
{
    put_all(out, at, name_at(&NAMES, code as usize))
}
