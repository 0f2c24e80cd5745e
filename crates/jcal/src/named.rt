// A line by what it is, with the name of a component that it has.
ghost use Rattle.jcal.specs.Events.{NameOf};
ghost use Rattle.jcal.specs.NameProps.{name-prop};

use crate::events::LineKind;

// The line ends where its name does.
#[derive(Clone, Copy)]
pub(crate) struct NamedLine<'a> {
    pub(crate) buf: &'a [u8],
    pub(crate) end: usize,
    pub(crate) kind: LineKind,
    ghost named: { NameOf buf.now end kind } by { name-prop buf.now end kind },
}
