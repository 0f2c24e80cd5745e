// The values of a property for jCal: which raw values stand, and how they stand in a property's array.
#![tactic(auto)]

mod decoded;
mod forms;
mod raw;
mod recur;
mod single;

pub use decoded::put_decoded;
pub use raw::{holds_values, put_tested};
