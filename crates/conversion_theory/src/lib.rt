// The two conversions between iCalendar and jCal.
#![tactic(auto)]
