// The JSON kinds that the values of a recurrence object take.
ghost use Rattle.std.specs.Prelude.{◌≡◌};
ghost use Rattle.octets.specs.Basics.{all};
ghost use Rattle.calendar.specs.Walk.{part_sort_said};
ghost use Rattle.json_text.specs.Tree.{num, str};
ghost use Rattle.values.specs.Recur.{word_octet};
ghost use Rattle.ical_recur.specs.Kinds.{item_is};

use calendar::parts::PartSort;
use calendar::texts::is_extended_moment;
use octets::{is_digit, is_lower, is_sign, is_upper};
use values::simple::is_integer;

fn is_word_octet(c: u8) -> bool
    ensures { result ≡ word_octet c }
{
    is_upper(c) || is_lower(c) || is_digit(c) || is_sign(c)
}

// Letters, digits and signs, which separate nothing.
fn is_word(s: &[u8]) -> bool
    ensures { result ≡ all word_octet s.now }
{
    s.iter().all(|&c| is_word_octet(c))
}

// A string is a value of a part.
pub fn string_is(sort: PartSort, s: &[u8]) -> bool
    ensures { result ≡ item_is (part_sort_said sort) (str s.now) }
{
    match sort {
        PartSort::Frequency | PartSort::Weekday | PartSort::Ordinal => is_word(s),
        PartSort::Moment => is_extended_moment(s),
        PartSort::Count | PartSort::Numbers(_) => false,
    }
}

// A number is a value of a part.
pub fn number_is(sort: PartSort, s: &[u8]) -> bool
    ensures { result ≡ item_is (part_sort_said sort) (num s.now) }
{
    match sort {
        PartSort::Count | PartSort::Numbers(_) => is_integer(s),
        _ => false,
    }
}
