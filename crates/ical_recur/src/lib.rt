// The recurrence object of jCal on the tape: tested by the recurrence reader, and written as a rule of iCalendar.
#![tactic(auto)]

mod kinds;
mod rules;
mod wording;
mod writing;

pub use rules::write_rule;
pub use writing::fold_integer;
