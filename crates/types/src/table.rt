// Looking a name up: among the default types, and in rows that are laid out as octets.
ghost use Rattle.std.specs.Prelude.{◌≡◌, map, get_or};
ghost use Rattle.octets.specs.Basics.{same};
ghost use Rattle.octets.specs.Classes.{upper_octet, upper};
ghost use Rattle.types.specs.Table.{entry, find, defaults};
ghost use Rattle.types.specs.Coded.{type_code};
ghost use Rattle.types.specs.Laid.{rows_in, table_in, row_found};

use crate::Listing;
use crate::kinds::ValueType::{
    self, CalAddress, DateTime, Duration, Float, Integer, Period, Recur, Text, Uri, UtcOffset,
};
use octets::{both, peek, upper_octet};

// A row: its name in uppercase, its type, and whether the name may have many values.
pub(crate) type Row = (&'static [u8], ValueType, bool);

// The default types by their first letters.
static A_ROWS: [Row; 3] = [
    (b"ACTION", Text, false),
    (b"ATTACH", Uri, false),
    (b"ATTENDEE", CalAddress, false),
];

static C_ROWS: [Row; 7] = [
    (b"CALSCALE", Text, false),
    (b"CLASS", Text, false),
    (b"COMMENT", Text, false),
    (b"CONTACT", Text, false),
    (b"CATEGORIES", Text, true),
    (b"COMPLETED", DateTime, false),
    (b"CREATED", DateTime, false),
];

static D_ROWS: [Row; 6] = [
    (b"DESCRIPTION", Text, false),
    (b"DTEND", DateTime, false),
    (b"DUE", DateTime, false),
    (b"DTSTART", DateTime, false),
    (b"DTSTAMP", DateTime, false),
    (b"DURATION", Duration, false),
];

static E_ROWS: [Row; 1] = [(b"EXDATE", DateTime, true)];

static F_ROWS: [Row; 1] = [(b"FREEBUSY", Period, true)];

static G_ROWS: [Row; 1] = [(b"GEO", Float, false)];

static L_ROWS: [Row; 2] = [
    (b"LOCATION", Text, false),
    (b"LAST-MODIFIED", DateTime, false),
];

static M_ROWS: [Row; 1] = [(b"METHOD", Text, false)];

static O_ROWS: [Row; 1] = [(b"ORGANIZER", CalAddress, false)];

static P_ROWS: [Row; 3] = [
    (b"PRODID", Text, false),
    (b"PERCENT-COMPLETE", Integer, false),
    (b"PRIORITY", Integer, false),
];

static R_ROWS: [Row; 7] = [
    (b"RELATED-TO", Text, false),
    (b"REQUEST-STATUS", Text, false),
    (b"RESOURCES", Text, true),
    (b"REPEAT", Integer, false),
    (b"RECURRENCE-ID", DateTime, false),
    (b"RDATE", DateTime, true),
    (b"RRULE", Recur, false),
];

static S_ROWS: [Row; 3] = [
    (b"STATUS", Text, false),
    (b"SUMMARY", Text, false),
    (b"SEQUENCE", Integer, false),
];

static T_ROWS: [Row; 7] = [
    (b"TRANSP", Text, false),
    (b"TZID", Text, false),
    (b"TZNAME", Text, false),
    (b"TZURL", Uri, false),
    (b"TRIGGER", Duration, false),
    (b"TZOFFSETFROM", UtcOffset, false),
    (b"TZOFFSETTO", UtcOffset, false),
];

static U_ROWS: [Row; 2] = [(b"UID", Text, false), (b"URL", Uri, false)];

static V_ROWS: [Row; 1] = [(b"VERSION", Text, false)];

// What the default types and these rows say of a name, in either case.
pub fn find(rows: &[u8], name: &[u8]) -> Option<Listing>
    ensures { row_found result ≡ find (table_in rows.now) name.now }
{
    match find_default(name) {
        None => find_in(rows, name),
        found => found,
    }
}

// What the default types say of a name.
fn find_default(name: &[u8]) -> Option<Listing>
    ensures { row_found result ≡ find defaults name.now }
{
    match initial(name) {
        b'A' => first_of(&A_ROWS, name),
        b'C' => first_of(&C_ROWS, name),
        b'D' => first_of(&D_ROWS, name),
        b'E' => first_of(&E_ROWS, name),
        b'F' => first_of(&F_ROWS, name),
        b'G' => first_of(&G_ROWS, name),
        b'L' => first_of(&L_ROWS, name),
        b'M' => first_of(&M_ROWS, name),
        b'O' => first_of(&O_ROWS, name),
        b'P' => first_of(&P_ROWS, name),
        b'R' => first_of(&R_ROWS, name),
        b'S' => first_of(&S_ROWS, name),
        b'T' => first_of(&T_ROWS, name),
        b'U' => first_of(&U_ROWS, name),
        b'V' => first_of(&V_ROWS, name),
        _ => None,
    }
}

// The first letter of a name, in uppercase; 0 where there is none.
fn initial(name: &[u8]) -> u8
    ensures { result ≡ upper_octet (get_or name.now 0 0) }
{
    upper_octet(peek(name, 0))
}

// What the first of some rows that has this name says of it.
pub(crate) fn first_of(mut rows: &[Row], name: &[u8]) -> Option<Listing>
    ensures { row_found result ≡ find (map (λ r. entry r.0.now (type_code r.1) r.2) rows.entry.now) name.now }
{
    while let [(row, kind, many), rest @ ..] = rows {
        if is_named(row, name) {
            return Some(Listing {
                code: kind.code(),
                many: *many,
            });
        }
        rows = rest;
    }
    None
}

// What these rows say of a name.
fn find_in(mut rows: &[u8], name: &[u8]) -> Option<Listing>
    ensures { row_found result ≡ find (rows_in rows.entry.now) name.now }
{
    while let [length, code, many, rest @ ..] = rows {
        let n = *length as usize;
        if rest.len() < n {
            return None;
        }
        if is_named(&rest[..n], name) {
            return Some(Listing {
                code: *code,
                many: *many == 1,
            });
        }
        rows = &rest[n..];
    }
    None
}

// The row's name is this one in uppercase.
pub fn is_named(row: &[u8], name: &[u8]) -> bool
    ensures { result ≡ same row.now (upper name.now) }
{
    if row.len() != name.len() {
        return false;
    }
    let mut so_far = true;
    for (i, &c) in row.iter().enumerate() {
        so_far = both(so_far, c == upper_octet(name[i]));
    }
    so_far
}
