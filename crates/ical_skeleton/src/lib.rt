// The skeleton of jCal on a tape: the test of its shape (01, number 12), with how deep its components nest (6).
#![tactic(auto)]

mod components;
mod parameters;
mod properties;

pub use components::shape_of;
