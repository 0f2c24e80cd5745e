// The stop list: the moments of a recurrence rule, in a lent list of records, or one after the other.
#![tactic(auto)]

pub mod plans;
pub mod runs;

ghost use Rattle.std.specs.Prelude.{◌≡◌, ◌≤◌, length};
ghost use Rattle.stop_list.specs.Stops.{list_of, list_answer, list_outcome};
ghost use Rattle.stop_list.specs.Runs.{stop_on, stops_of, Live, StopsLaid};

use crate::plans::make_plan;
use crate::runs::{Run, advance};
use calendar::dates::Date;
use calendar::moments::{Kind, Moment, NotMoved};
use octets::Refusal;

#[derive(Clone, Copy)]
pub struct Stop {
    pub moment: Moment,
}

impl Stop {
    // At the first moment that can be named.
    pub const FIRST: Stop = Stop {
        moment: Moment {
            date: Date::FIRST,
            hour: 0,
            minute: 0,
            second: 0,
            kind: Kind::Day,
        },
    };

    // The stop so many hours later, or why there is none. Its other fields are kept.
    pub fn moved(self, hours: u64) -> Result<Stop, NotMoved>
        ensures { result ≡ stop_on self hours }
    {
        let mut stop = self;
        stop.moment = self.moment.moved(hours)?;
        Ok(stop)
    }
}

// Lists a run of stops from the front of the list, and says how many there are.
fn fill(list: &mut [Stop], mut run: Run) -> usize
    requires { Live run × (run.room ≤ length list.old) }
    ensures { StopsLaid (stops_of run) list.old list.new result }
{
    let room = list.len();
    for (i, slot) in list.iter_mut().enumerate() {
        let Some(stop) = advance(&mut run) else {
            return i;
        };
        *slot = stop;
    }
    room
}

// Lists the stops of a start and a rule: how many there are, or why none are listed.
pub fn list_stops(start: &[u8], rule: &[u8], list: &mut [Stop]) -> Result<usize, Refusal>
    ensures { list_outcome result list.new ≡ list_answer (list_of start.now rule.now (length list.old)) list.old }
{
    let run = make_plan(start, rule, list.len())?;
    Ok(fill(list, run))
}
