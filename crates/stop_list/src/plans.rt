// What a start and a rule come to: why they are refused, or a run of stops.
ghost use Rattle.std.specs.Prelude.{◌≡◌, not, eqb};
ghost use Rattle.octets.specs.Basics.{◌and◌, ◌or◌};
ghost use Rattle.stop_list.specs.Stops.{frequency_served, other_by, days_served, end_served, served};
ghost use Rattle.recurrence_set.specs.Searches.{room_of};
ghost use Rattle.stop_list.specs.Plans.{Plans};

use crate::runs::Run;
use calendar::by_days::ByDays;
use calendar::moments::{Kind, read_moment};
use calendar::rules::{ByParts, End, Frequency, Rule, read_rule};
use octets::Refusal;
use recurrence_set::series_of;

// The frequency is HOURLY, DAILY, WEEKLY or MONTHLY, and not HOURLY from a date.
#[tactic(auto, unfolding(crate::specs::Stops::frequency_served, calendar::specs::Moments::same_kind, calendar::specs::Moments::kind_place))]
fn is_frequency_served(f: Frequency, k: Kind) -> bool
    ensures { result ≡ frequency_served f k }
{
    match f {
        Frequency::Hourly => k != Kind::Day,
        Frequency::Daily | Frequency::Weekly | Frequency::Monthly => true,
        Frequency::Secondly | Frequency::Minutely | Frequency::Yearly => false,
    }
}

// There is a BY part other than BYDAY and BYMONTHDAY.
#[tactic(auto, unfolding(crate::specs::Stops::other_by))]
fn has_other_by(by: ByParts) -> bool
    ensures { result ≡ other_by by }
{
    by.second || by.minute || by.hour || by.yearday || by.weekno || by.month || by.setpos
}

// There is neither a BYDAY nor a BYMONTHDAY.
fn has_no_days(by: ByParts) -> bool
    ensures { result ≡ not (by.day or by.monthday) }
{
    !(by.day || by.monthday)
}

// There is no BYMONTHDAY, and no number in BYDAY.
fn has_weekdays_only(by: ByParts, days: ByDays) -> bool
    ensures { result ≡ (not by.monthday and eqb days.ordinals 0 and eqb days.lastordinals 0) }
{
    !by.monthday && days.ordinals == 0 && days.lastordinals == 0
}

// There are not both a BYDAY and a BYMONTHDAY.
fn has_one_of_days(by: ByParts) -> bool
    ensures { result ≡ not (by.day and by.monthday) }
{
    !(by.day && by.monthday)
}

// The BYDAY and BYMONTHDAY that there are, or none, are served.
#[tactic(auto, unfolding(crate::specs::Stops::days_served))]
fn are_days_served(f: Frequency, by: ByParts, days: ByDays) -> bool
    ensures { result ≡ days_served f by days }
{
    match f {
        Frequency::Hourly | Frequency::Daily => has_no_days(by),
        Frequency::Weekly => has_weekdays_only(by, days),
        Frequency::Monthly => has_one_of_days(by),
        Frequency::Secondly | Frequency::Minutely | Frequency::Yearly => false,
    }
}

// An UNTIL is of the start's kind, and its second is not 60.
#[tactic(auto, unfolding(crate::specs::Stops::end_served, calendar::specs::Moments::same_kind, calendar::specs::Moments::kind_place))]
fn is_end_served(end: End, k: Kind) -> bool
    ensures { result ≡ end_served end k }
{
    match end {
        End::Until(u) => u.kind == k && u.second != 60,
        End::Count(_) | End::Open => true,
    }
}

// The rule is served from a start of a kind.
#[tactic(auto, unfolding(crate::specs::Stops::served))]
fn is_served(rule: Rule, k: Kind) -> bool
    ensures { result ≡ served rule k }
{
    is_frequency_served(rule.frequency, k)
        && !has_other_by(rule.by)
        && are_days_served(rule.frequency, rule.by, rule.days)
        && is_end_served(rule.end, k)
}

// How many moments a rule's COUNT and the room leave.
#[tactic(auto, unfolding(recurrence_set::specs::Searches::room_of))]
fn room_of(end: End, room: usize) -> usize
    ensures { result ≡ room_of end room }
{
    match end {
        End::Count(n) => room.min(n as usize),
        End::Until(_) | End::Open => room,
    }
}

// The run of stops of a start and a rule, for a list of so many records, or why they are refused.
pub fn make_plan(start: &[u8], rule: &[u8], room: usize) -> Result<Run, Refusal>
    ensures { Plans start.now rule.now room result }
{
    let Some(m) = read_moment(start) else {
        return Err(Refusal::BadStart);
    };
    if m.second == 60 {
        return Err(Refusal::BadStart);
    }
    let Some(r) = read_rule(rule) else {
        return Err(Refusal::BadRule);
    };
    if !is_served(r, m.kind) {
        return Err(Refusal::NotServed);
    }
    let series = series_of(m, r);
    Ok(Run {
        series,
        room: room_of(r.end, room),
        from: series.place,
    })
}
