// The end of a conversion: a refusal's number, and the lent buffer as it is left.
ghost use Rattle.std.specs.Prelude.{◌≡◌};
ghost use Rattle.octets.specs.Answers.{number, outcome, answer, refused, finished};

use crate::Refusal;
use crate::writing::zero;

impl Refusal {
    // 01's number of this refusal.
    pub fn number(self) -> u8
        ensures { result ≡ number self }
    {
        match self {
            Refusal::TextTooLong => 1,
            Refusal::RowsMalformed => 2,
            Refusal::NotClean => 3,
            Refusal::NotContentLine => 4,
            Refusal::NotPaired => 5,
            Refusal::TooDeep => 6,
            Refusal::BadParameter => 7,
            Refusal::BadEncoding => 8,
            Refusal::BadValue => 9,
            Refusal::NoRoom => 10,
            Refusal::NotJson => 11,
            Refusal::NotJcal => 12,
            Refusal::BadStart => 13,
            Refusal::BadRule => 14,
            Refusal::NotServed => 15,
        }
    }
}

// Refuses: the whole buffer is zeroed.
pub fn refuse(out: &mut [u8], why: Refusal) -> Result<usize, Refusal>
    ensures { outcome result out.new ≡ answer (refused (number why)) out.old }
{
    zero(out);
    Err(why)
}

// Ends a conversion whose pen stopped at `at`: the text stands in the buffer, or it did not fit.
pub fn finish(out: &mut [u8], at: usize) -> Result<usize, Refusal>
    ensures { outcome result out.new ≡ finished at out.old }
{
    if at <= out.len() {
        Ok(at)
    } else {
        zero(out);
        Err(Refusal::NoRoom)
    }
}
