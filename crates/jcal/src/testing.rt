// Numbers 7, 8 and 9 of the properties in text order: the first one in fault decides.
ghost use Rattle.std.specs.Prelude.{◌≡◌};
ghost use Rattle.octets.specs.Answers.{answered, accepted, then};
ghost use Rattle.types.specs.Laid.{table_in};
ghost use Rattle.conversion_theory.specs.Property.{read_property};
ghost use Rattle.conversion_theory.specs.Growth.{each_property};
ghost use Rattle.jcal.specs.Events.{event_at, events_in, line_from, LineAt, TellsLine};
ghost use Rattle.jcal.specs.Components.{event_tested};

use crate::events::{LineKind, LinesFrom, ToldLine};
use crate::paired::Calendar;
use jcal_properties::test_property;
use octets::Refusal;

// Tests 7, 8 and 9 of a line, if it is a property.
fn test_line(calendar: Calendar, line: ToldLine) -> Result<(), Refusal>
    requires line_at { LineAt calendar.lines.now line.at line.end }
    requires tells { TellsLine calendar.lines.now line.at line.end line.kind }
    ensures { answered result ≡ event_tested (read_property (table_in calendar.entry.rows.now)) (event_at (line_from calendar.entry.lines.now line.at)) }
{
    match line.kind {
        LineKind::Plain => test_property(&calendar.lines[line.at..line.end], calendar.rows),
        _ => Ok(()),
    }
}

// Tests 7, 8 and 9, at the first property in fault.
pub(crate) fn test_properties(calendar: Calendar) -> Result<(), Refusal>
    ensures { answered result ≡ then (each_property (read_property (table_in calendar.entry.rows.now)) (events_in calendar.entry.lines.now)) (λ _. accepted tt) }
{
    for line in (LinesFrom {
        buf: calendar.lines,
        at: 0,
    }) {
        test_line(calendar, line)?;
    }
    Ok(())
}
