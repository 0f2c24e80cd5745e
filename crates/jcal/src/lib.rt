// The conversion of iCalendar to jCal.
#![tactic(auto)]

mod components;
mod conversion;
mod events;
mod named;
mod nesting;
mod paired;
mod testing;

pub use conversion::to_jcal;
