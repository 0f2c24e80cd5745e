// Dates, moments, durations and recurrence rules.
#![tactic(auto)]

pub mod by_days;
pub mod dates;
pub mod durations;
pub mod items;
pub mod moments;
pub mod parts;
pub mod rules;
pub mod texts;
