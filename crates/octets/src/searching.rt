// The search for an octet, and for the end of a run of octets of a class.
ghost use Rattle.std.specs.Prelude.{◌≡◌, not, ◌+◌, eqb, length, drop};
ghost use Rattle.octets.specs.Basics.{all};
ghost use Rattle.octets.specs.Groups.{belongs};
ghost use Rattle.octets.specs.Search.{until};

use crate::names::{Class, all_in};

// Octets that are looked at together.
const BLOCK: usize = 16;

// Whether no octet is `b`.
pub fn is_free(s: &[u8], b: u8) -> bool
    ensures { result ≡ all (λ c. not (eqb c b)) s.now }
{
    all_in(s, Class::Other(b))
}

// The end of the octets of the class from `at` on. By `position` and a closure it took three times as long.
#[inline(always)]
pub fn run_end(s: &[u8], at: usize, class: Class) -> usize
    ensures { result ≡ at + length (until (λ c. not (belongs class c)) (drop at s.now)) }
{
    for i in at..s.len() {
        if !class.has(s[i]) {
            return i;
        }
    }
    s.len().max(at)
}

// Each octet of a block is of the class. They are counted, since a compiler then looks at all of them together, however many tests the class has.
#[inline(always)]
fn is_block_of(s: &[u8], class: Class) -> bool
    ensures { result ≡ all (belongs class) s.now }
{
    let mut n = 0;
    for &c in s {
        if class.has(c) {
            n += 1;
        }
    }
    n == s.len()
}

// The end of the octets of the class from `at` on, for runs that are long: whole blocks first.
#[inline(always)]
pub fn long_run_end(s: &[u8], at: usize, class: Class) -> usize
    ensures { result ≡ at + length (until (λ c. not (belongs class c)) (drop at s.now)) }
{
    let Some(mut rest) = s.get(at..) else {
        return at;
    };
    while let Some((block, behind)) = rest.split_at_checked(BLOCK) {
        if !is_block_of(block, class) {
            break;
        }
        rest = behind;
    }
    run_end(s, s.len() - rest.len(), class)
}

// The place of the next `b` from `at` on, or the end.
pub fn find(s: &[u8], at: usize, b: u8) -> usize
    ensures { result ≡ at + length (until (λ c. eqb c b) (drop at s.now)) }
{
    long_run_end(s, at, Class::Other(b))
}

// The same, for an octet that mostly stands near: a block's octets are looked at one by one before whole blocks.
pub fn find_near(s: &[u8], at: usize, b: u8) -> usize
    ensures { result ≡ at + length (until (λ c. eqb c b) (drop at s.now)) }
{
    if s.len() <= at || s.len() - at < BLOCK {
        return run_end(s, at, Class::Other(b));
    }
    let far = at + BLOCK;
    let e = run_end(&s[..far], at, Class::Other(b));
    if e < far { e } else { find(s, far, b) }
}
