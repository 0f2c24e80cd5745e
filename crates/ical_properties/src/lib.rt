// A jCal property on the tape, on its way to iCalendar: its parts, what its row and type say, and its parameters, tested and written.
#![tactic(auto)]

mod params;
mod places;
mod rulings;
mod writing;

pub use params::{any_encodes, may_return};
pub use places::property_parts;
pub use rulings::{encoding_fits, ruling_of};
use tape::Text;
use values::Sort;
pub use writing::write_params;

// Where the parts of a property stand: its name, its parameters, its type, and its values up to the end of its array.
#[derive(Clone, Copy)]
pub struct PropertyParts {
    pub name: Text,
    pub params: usize,
    pub kind: Text,
    pub values: usize,
}

// What a property's row and type say: the code that number 8 goes by, one or many, the sort of the values,
// whether VALUE is written, and whether an "unknown" value must be what its name takes.
// The code is an octet, 0 for none, since it goes to `encoding_fits`, `is_decoded` and `sort_of`, which promise something of every octet.
#[derive(Clone, Copy)]
pub struct Ruling {
    pub code: u8,
    pub many: bool,
    pub sort: Sort,
    pub shown: bool,
    pub taken: bool,
}
