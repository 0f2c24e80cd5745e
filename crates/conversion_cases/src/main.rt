// Runs both conversions: the cases of data/tojcal and data/tocal, then the four routes of a property that only the newer table lists. Prints what
// fails, how many cases there are, and the routes.
#![tactic(auto)]

mod cases;
mod routes;

use cases::Direction;
use std::io;

fn main(rt: HostRuntime) -> io::Result<()> {
    cases::run_folder(&rt, b"tojcal/", Direction::ToJcal)?;
    cases::run_folder(&rt, b"tocal/", Direction::ToIcal)?;
    routes::run(&rt)
}
