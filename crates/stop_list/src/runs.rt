// A run of stops: the moments of a rule one after the other, as far as its end and the room for them go.
ghost use Rattle.std.specs.Iterator.{YieldsFirst, item_count};
ghost use Rattle.stop_list.specs.Runs.{stops_of, Live, Advances};

use crate::Stop;
use recurrence_set::{Series, first_from, moment_at};

// The stops of a series that are ahead: how many more there is room for, and the place from which on the next is looked for.
#[derive(Clone, Copy)]
pub struct Run {
    pub series: Series,
    pub room: usize,
    pub from: u32,
}

// The next stop of a run, if there is one, and room for it.
pub fn advance(run: &mut Run) -> Option<Stop>
    ensures { Live run.old → Advances run.old result run.new }
{
    if run.room == 0 {
        return None;
    }
    let series = run.series;
    let here = first_from(series, run.from)?;
    run.room -= 1;
    // The search says of a founded series alone that it finds a place with one behind it.
    run.from = here.saturating_add(1);
    Some(Stop {
        moment: moment_at(series, here),
    })
}

impl Iterator for Run {
    type Item = Stop;

    ghost can_next = { Live };

    ghost next_gives = { YieldsFirst stops_of };

    ghost remaining = { item_count stops_of };

    fn next(&mut self) -> Option<Stop> {
        advance(self)
    }
}
