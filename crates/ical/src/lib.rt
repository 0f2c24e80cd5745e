// The conversion to iCalendar, over the tape of a jCal text.
#![tactic(auto)]

mod components;
mod converting;
mod lines;
mod property;

pub use converting::to_ical;
