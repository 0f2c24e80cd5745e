// The table of types: the default rows and those of rows.hex, and the types' names.
#![tactic(auto)]

mod codes;
mod kinds;
mod rows;
mod table;

pub use codes::{code_named, does_split, is_unknown, known_code, put_type_name};
pub use kinds::ValueType;
pub use rows::read_rows;
pub use table::find;

// Octets of a row's frame: its type's code, one or many, and at most 32 of its name.
const MOST_FRAME: usize = 2 + 32;

// Hexadecimal digits of a frame.
const MOST_DIGITS: usize = 2 * MOST_FRAME;

// Octets that the rows of any file take at most, each its frame behind the length of its name.
pub const ROOM_FOR_ROWS: usize = (1 + MOST_FRAME) * octets::MOST_ROWS;

// What a table says of a name: the code of its type, and whether it may have many values.
// The code is an octet and no `ValueType`: `find` takes any octets for rows, and `table_in` has of a row whatever stands there.
#[derive(Clone, Copy)]
pub struct Listing {
    pub code: u8,
    pub many: bool,
}
