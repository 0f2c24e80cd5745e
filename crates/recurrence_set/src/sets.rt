// Sets of days: the least of them, and weeks of them.
ghost use Rattle.std.specs.Prelude.{◌+◌, ◌*◌, ◌/◌, ◌%◌, ◌<◌};
ghost use Rattle.calendar.specs.Sets.{has};
ghost use Rattle.recurrence_set.specs.Searches.{LeastOf, Marks};

// The first day of each of five weeks.
const WEEKS: u64 = 1 + 128 + 16384 + 2097152 + 268435456;

// The least number of a set, if it has one.
pub(crate) fn least(set: u64) -> Option<u64>
    ensures { LeastOf set result }
{
    if set == 0 {
        return None;
    }
    Some(u64::trailing_zeros(set) as u64)
}

// A set of weekdays in each of five weeks.
pub(crate) fn each_week(set: u64) -> u64
    ensures { Marks 35 (λ k. has set (k % 7)) result }
{
    (set % 128) * WEEKS
}

// Five weeks of a set, each turned so that it begins with the weekday w.
pub(crate) fn turned(set: u64, w: u64) -> u64
    requires { w < 7 }
    ensures { Marks 35 (λ k. has set ((k + w) % 7 + 7 * (k / 7))) result }
{
    if set == 0 {
        return 0;
    }
    let front = ((1 << (7 - w)) - 1) * WEEKS;
    let back = 127 * WEEKS - front;
    ((set >> w) & front) | ((set << (7 - w)) & back)
}
