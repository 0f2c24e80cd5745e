// The parts of a property on the tape.
ghost use Rattle.ical_properties.specs.PartPlaces.{Into, PartsAt};

use super::PropertyParts;
use tape::{ARRAY, OBJECT, after, behind, tag, text_at};

// The place of the first value of the group with this tag at `at`; of nothing, where another value stands there.
pub fn into(t: &[u8], at: usize, group: u8) -> usize
    ensures { Into group t.now at result }
{
    if tag(t, at) == group {
        after(t, at)
    } else {
        t.len()
    }
}

// The parts of the property at `at`; what is missing is empty. Of its name and its type the octets are told, and the place behind them is free.
pub fn property_parts(t: &[u8], at: usize) -> PropertyParts
    ensures { PartsAt t.now at result }
{
    let a = into(t, at, ARRAY);
    let name = text_at(t, a);
    let b = name.next;
    let params = into(t, b, OBJECT);
    let c = behind(t, b);
    let kind = text_at(t, c);
    PropertyParts {
        name,
        params,
        kind,
        values: kind.next,
    }
}
