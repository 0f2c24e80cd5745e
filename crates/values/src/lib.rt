// The fourteen value types: the sorts of values, those that are neither dates, recurrence rules nor texts, and the text of a value that is sent as base64.
#![tactic(auto)]

pub mod base64;
pub mod simple;
mod sorts;

pub use sorts::{Sort, sort_of};
