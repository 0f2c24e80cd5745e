// Weekly rules: the weekdays that serve, and the first day from one on that meets the rule.
ghost use Rattle.std.specs.Prelude.{◌≤◌, ◌<◌};
ghost use Rattle.recurrence_set.specs.Meets.{weekly_meets};
ghost use Rattle.recurrence_set.specs.Searches.{NextOf, MarksOnly, serves_in_week};

use crate::Stepped;
use crate::sets::{each_week, least};
use calendar::by_days::weekday_place;
use calendar::rules::Rule;

// The weekdays that serve, by their places in a week that begins on the weekday w; v is the start's weekday.
fn week_set(rule: Rule, v: u64, w: u64) -> u64
    requires { (v < 7) × (w < 7) }
    ensures { MarksOnly 7 (serves_in_week rule v w) result }
{
    let by = rule.by;
    let days = rule.days;
    let set = if by.day { days.weekdays } else { 1 << v };
    (each_week(set) >> w) % 128
}

// The first day from one on that meets a weekly rule, if any day does.
pub(crate) fn weekly_from(stepped: Stepped, start: u32, from: u32, places: u32) -> Option<u64>
    requires { (start ≤ from) × (from < places) }
    ensures { NextOf (weekly_meets stepped.rule start) places from result }
{
    let rule = stepped.rule;
    let wkst = rule.wkst;
    let w = weekday_place(wkst);
    let set = week_set(rule, (start as u64 + 5) % 7, w);
    let first = least(set)?;
    let interval = rule.interval as u64;
    let at = from as u64 + 5 + (7 - w);
    let week = at / 7;
    let out = (week - (start as u64 + 5 + (7 - w)) / 7) % interval;
    if out == 0 {
        if let Some(later) = least(set >> (at % 7)) {
            return Some(from as u64 + later);
        }
    }
    Some((week + (interval - out)) * 7 + first - 5 - (7 - w))
}
