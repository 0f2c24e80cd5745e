// The fourteen types of values.
ghost use Rattle.std.specs.Prelude.{◌≡◌};
ghost use Rattle.types.specs.Codes.{code_named, type_name, type_splits};
ghost use Rattle.types.specs.Coded.{type_code, coded};

// A type; its number is its code.
#[derive(Clone, Copy)]
pub enum ValueType {
    Binary = 1,
    Boolean,
    CalAddress,
    Date,
    DateTime,
    Duration,
    Float,
    Integer,
    Period,
    Recur,
    Text,
    Time,
    Uri,
    UtcOffset,
}

impl ValueType {
    // The code, 1 to 14.
    #[tactic(auto, unfolding(crate::specs::Coded::type_code))]
    pub fn code(self) -> u8
        ensures { result ≡ type_code self }
    {
        self as u8
    }

    // The type that has a code; none for a code outside the fourteen.
    #[tactic(auto, unfolding(crate::specs::Codes::code_named, crate::specs::Codes::type_name, crate::specs::Codes::type_names, crate::specs::Codes::place_from, octets::specs::Basics::same))]
    pub fn of_code(code: u8) -> Option<ValueType>
        ensures { coded result ≡ code_named (type_name code) }
    {
        match code {
            1 => Some(ValueType::Binary),
            2 => Some(ValueType::Boolean),
            3 => Some(ValueType::CalAddress),
            4 => Some(ValueType::Date),
            5 => Some(ValueType::DateTime),
            6 => Some(ValueType::Duration),
            7 => Some(ValueType::Float),
            8 => Some(ValueType::Integer),
            9 => Some(ValueType::Period),
            10 => Some(ValueType::Recur),
            11 => Some(ValueType::Text),
            12 => Some(ValueType::Time),
            13 => Some(ValueType::Uri),
            14 => Some(ValueType::UtcOffset),
            _ => None,
        }
    }

    // Whether values split at commas: binary, cal-address, recur and uri never do, and each of the others does.
    #[tactic(auto, unfolding(crate::specs::Coded::type_code, crate::specs::Codes::type_splits, octets::specs::Classes::between))]
    pub fn splits(self) -> bool
        ensures { result ≡ type_splits (type_code self) }
    {
        !matches!(
            self,
            ValueType::Binary | ValueType::CalAddress | ValueType::Recur | ValueType::Uri
        )
    }
}
