// The values of a jCal property on the tape: tested by their sort, and written for iCalendar through the folding pen.
#![tactic(auto)]

mod escaping;
mod leaves;
mod single;
mod tested;
mod writing;

pub use tested::write_tested;
