// The values of a property: which raw values stand, and how they stand in a property's array.
ghost use Rattle.std.specs.Prelude.{◌≡◌};
ghost use Rattle.octets.specs.Basics.{◌or◌, single};
ghost use Rattle.octets.specs.Optional.{is_some, guard, each};
ghost use Rattle.octets.specs.Pen.{pen};
ghost use Rattle.json_text.specs.Print.{values_json};
ghost use Rattle.values.specs.Sorts.{sort_splits};
ghost use Rattle.values.specs.Read.{read_values};
ghost use Rattle.values.specs.Coded.{sort_said};
ghost use Rattle.jcal_texts.specs.Trying.{Tried};
ghost use Rattle.jcal_values.specs.Attempts.{Attempted};
ghost use Rattle.jcal_values.specs.Parts.{read_alone, value_pieces};

use crate::single::put_tested_one;
use jcal_texts::put_tested_texts;
use octets::put;
use values::Sort;

// Tests values that are read one by one, one only where there may not be many, and writes each with a comma before it.
fn put_tested_list(out: &mut [u8], at: usize, sort: Sort, many: bool, raw: &[u8]) -> Option<usize>
    ensures { Tried (guard (λ vs. many or single vs) (each (read_alone (sort_said sort)) (value_pieces (sort_splits (sort_said sort)) raw.now))) values_json (pen out.old at) out.new result }
{
    let splits = sort.splits();
    let mut p = at;
    for (n, value) in raw.split(|&c| splits && c == b',').enumerate() {
        if n > 0 && !many {
            return None;
        }
        let first = put(out, p, b',');
        p = put_tested_one(out, first, sort, value)?;
    }
    Some(p)
}

// Tests the values of a raw value, and writes each with a comma before it.
pub fn put_tested(out: &mut [u8], at: usize, sort: Sort, many: bool, raw: &[u8]) -> Option<usize>
    ensures { Attempted many (sort_said sort) raw.now (pen out.old at) out.new result }
{
    if sort.is_text() {
        return put_tested_texts(out, at, raw, many);
    }
    put_tested_list(out, at, sort, many, raw)
}

// The raw value stands: each of its values is one of the sort, and there is one only where there may not be many. It is written where there is no room.
pub fn holds_values(sort: Sort, many: bool, raw: &[u8]) -> bool
    ensures { result ≡ is_some (guard (λ vs. many or single vs) (read_values (sort_said sort) raw.now)) }
{
    let mut none = [0u8; 1];
    put_tested(&mut none, 0, sort, many, raw).is_some()
}
