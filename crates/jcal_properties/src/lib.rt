// A property of a content line on its way to jCal: its tests, and its JSON.
#![tactic(auto)]

mod names;
mod property;

pub use names::put_name;
pub use property::{place_property, test_property};
