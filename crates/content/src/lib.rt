// iCalendar text: lines, content lines, parameters, folding.
#![tactic(auto)]

mod fold;
mod write;

pub use fold::{Folder, end_line, fold_all, fold_octet, fold_upper};
pub use write::{begin_param, next_param_value, write_param_value};

mod form;
mod lines;
mod object;
mod params;
mod parts;
mod reading;
mod scan;
mod twice;

pub use lines::line_end;
pub use object::put_params;
pub use params::{NoType, is_encoded, value_type};
pub use parts::{Parts, parts_of};
pub use reading::read_lines;
pub use twice::name_twice;

// Room for the lines of any text: an LF more than it has octets.
pub const ROOM_FOR_LINES: usize = octets::MOST_TEXT + 1;
