// What rules a value, by the property's name and the type's code.
ghost use Rattle.std.specs.Prelude.{◌≡◌, []};
ghost use Rattle.octets.specs.Classes.{lower};
ghost use Rattle.types.specs.Coded.{coded};
ghost use Rattle.values.specs.Sorts.{sort_of, is_text, sort_splits};
ghost use Rattle.values.specs.Coded.{sort_said};

use octets::same_name;
use types::ValueType;

// Unprocessed values, URIs and cal-addresses are plain; GEO as float and REQUEST-STATUS as text have sorts of their own.
#[derive(Clone, Copy)]
pub enum Sort {
    Plain,
    Binary,
    Boolean,
    Date,
    DateTime,
    Duration,
    Float,
    Geo,
    Integer,
    Period,
    Recur,
    Text,
    Status,
    Time,
    UtcOffset,
}

// The sort that a type has under a name that has none of its own; what is of no type is plain.
impl From<Option<ValueType>> for Sort {
    ghost from_gives = { λ kind r. sort_said r ≡ sort_of [] (coded kind) };

    #[tactic(auto, unfolding(crate::specs::Coded::sort_said, crate::specs::Sorts::sort_of, octets::specs::Basics::same))]
    fn from(kind: Option<ValueType>) -> Sort {
        match kind {
            Some(ValueType::Binary) => Sort::Binary,
            Some(ValueType::Boolean) => Sort::Boolean,
            Some(ValueType::Date) => Sort::Date,
            Some(ValueType::DateTime) => Sort::DateTime,
            Some(ValueType::Duration) => Sort::Duration,
            Some(ValueType::Float) => Sort::Float,
            Some(ValueType::Integer) => Sort::Integer,
            Some(ValueType::Period) => Sort::Period,
            Some(ValueType::Recur) => Sort::Recur,
            Some(ValueType::Text) => Sort::Text,
            Some(ValueType::Time) => Sort::Time,
            Some(ValueType::UtcOffset) => Sort::UtcOffset,
            Some(ValueType::CalAddress | ValueType::Uri) | None => Sort::Plain,
        }
    }
}

// The sort of a value, by its type's code and the property's name; the code is an octet, since the definition `sort_of` speaks of every one.
pub fn sort_of(name: &[u8], code: u8) -> Sort
    ensures { sort_said result ≡ sort_of (lower name.now) code }
{
    match Sort::from(ValueType::of_code(code)) {
        Sort::Float => {
            if same_name(name, b"GEO") {
                Sort::Geo
            } else {
                Sort::Float
            }
        }
        Sort::Text => {
            if same_name(name, b"REQUEST-STATUS") {
                Sort::Status
            } else {
                Sort::Text
            }
        }
        sort => sort,
    }
}

impl Sort {
    // Its values are texts, which split at bare commas.
    #[tactic(auto, unfolding(crate::specs::Coded::sort_said, crate::specs::Sorts::is_text))]
    pub fn is_text(self) -> bool
        ensures { result ≡ is_text (sort_said self) }
    {
        matches!(self, Sort::Text)
    }

    // Its values split at commas, as its type says, plain ones as URIs do; but GEO and REQUEST-STATUS are one array each.
    #[tactic(auto, unfolding(crate::specs::Coded::sort_said, crate::specs::Sorts::sort_splits))]
    pub fn splits(self) -> bool
        ensures { result ≡ sort_splits (sort_said self) }
    {
        match self {
            Sort::Plain => ValueType::Uri.splits(),
            Sort::Binary => ValueType::Binary.splits(),
            Sort::Boolean => ValueType::Boolean.splits(),
            Sort::Date => ValueType::Date.splits(),
            Sort::DateTime => ValueType::DateTime.splits(),
            Sort::Duration => ValueType::Duration.splits(),
            Sort::Float => ValueType::Float.splits(),
            Sort::Integer => ValueType::Integer.splits(),
            Sort::Period => ValueType::Period.splits(),
            Sort::Recur => ValueType::Recur.splits(),
            Sort::Text => ValueType::Text.splits(),
            Sort::Time => ValueType::Time.splits(),
            Sort::UtcOffset => ValueType::UtcOffset.splits(),
            Sort::Geo | Sort::Status => false,
        }
    }
}
