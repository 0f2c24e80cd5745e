// A calendar's lines, which pair, and the added rows that they are read by.
ghost use Rattle.std.specs.Prelude.{◌≡◌, ◌≤◌, length};
ghost use Rattle.content.specs.Reading.{room_for_lines};
ghost use Rattle.conversion_theory.specs.Structure.{fresh, closed, nest_after};
ghost use Rattle.jcal.specs.Events.{events_in};
ghost use Rattle.jcal.specs.Order.{ordered};

// In order, no property stands directly behind an END line.
#[derive(Clone, Copy)]
pub(crate) struct Calendar<'a> {
    pub(crate) lines: &'a [u8],
    pub(crate) rows: &'a [u8],
    pub(crate) in_order: bool,
    ghost few: { length lines.now ≤ room_for_lines },
    ghost paired: { nest_after fresh (events_in lines.now) ≡ closed },
    ghost order: { in_order ≡ ordered (events_in lines.now) },
}
