// Octets: the limits of a conversion, refusals and answers, and the pen that writes into lent buffers.
#![tactic(auto)]

mod encoding;
mod names;
mod numbers;
mod searching;
mod settling;
mod tables;
mod writing;

pub use encoding::is_utf8;
pub use names::{
    Case, Class, all_digits, all_plain, all_text, both, each_is, hex_digit, is_digit, is_lower,
    is_lower_name, is_name, is_plain_octet, is_upper, lower_octet, peek, same, same_name,
    upper_octet,
};
pub use numbers::{
    is_negative, is_sign, leading_zeros, put_decimal, put_integer_text, sign_length, value_of,
};
pub use searching::{find, find_near, is_free, long_run_end, run_end};
pub use settling::{finish, refuse};
pub use tables::{Entering, SLOTS, enter};
pub use writing::{put, put_all, put_lower, put_upper, zero};

// Octets of a converted text.
pub const MOST_TEXT: usize = 65536;

// Levels of components, VCALENDAR being the first.
pub const MOST_LEVELS: usize = 8;

// JSON arrays and objects open at once.
pub const MOST_OPEN: usize = 32;

// Rows of rows.hex.
pub const MOST_ROWS: usize = 64;

// Octets of a written line before CRLF.
pub const MOST_COLUMNS: usize = 75;

// An integer, a COUNT or an INTERVAL.
pub const MOST_INTEGER: u32 = 2147483647;

// The last year of a date.
pub const LAST_YEAR: u16 = 9999;

// A refusal; the definition `number` gives its number.
#[derive(Clone, Copy)]
pub enum Refusal {
    TextTooLong,
    RowsMalformed,
    NotClean,
    NotContentLine,
    NotPaired,
    TooDeep,
    BadParameter,
    BadEncoding,
    BadValue,
    NoRoom,
    NotJson,
    NotJcal,
    BadStart,
    BadRule,
    NotServed,
}
