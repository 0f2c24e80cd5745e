// Scans for the next separator that is not in quotes.
ghost use Rattle.std.specs.Prelude.{◌≡◌, false, not, ◌+◌, ◌≤◌, eqb, length, drop};
ghost use Rattle.octets.specs.Basics.{◌and◌, ◌or◌};
ghost use Rattle.content.specs.Line.{quote_after};
ghost use Rattle.content.specs.Scan.{until_bare};

fn quote_after(quoted: bool, c: u8) -> bool
    ensures { result ≡ quote_after quoted c }
{
    if c == b'"' { !quoted } else { quoted }
}

// Whether `c` is `a` or `b`, and not in quotes.
fn is_bare(quoted: bool, c: u8, a: u8, b: u8) -> bool
    ensures { result ≡ (not quoted and (eqb c a or eqb c b)) }
{
    !quoted && (c == a || c == b)
}

// The place of the first `a` or `b` that is not in quotes, or the end, where quotes are looked for.
fn past_quotes(s: &[u8], a: u8, b: u8) -> usize
    ensures { result ≡ length (until_bare (λ c. eqb c a or eqb c b) false s.now) }
{
    let mut quoted = false;
    for (i, &c) in s.iter().enumerate() {
        if is_bare(quoted, c, a, b) {
            return i;
        }
        quoted = quote_after(quoted, c);
    }
    s.len()
}

fn greater(a: u8, b: u8) -> u8
    ensures { (a ≤ result) × (b ≤ result) }
{
    if a < b { b } else { a }
}

// The place of the first `a` or `b` that is not in quotes, or the end. Most octets are above `a`, `b` and the quote.
#[inline(always)]
fn first_bare(s: &[u8], a: u8, b: u8) -> usize
    ensures { result ≡ length (until_bare (λ c. eqb c a or eqb c b) false s.now) }
{
    let most = greater(greater(a, b), b'"');
    for (i, &c) in s.iter().enumerate() {
        if most < c {
            continue;
        }
        if is_bare(false, c, a, b) {
            return i;
        }
        if c == b'"' {
            return i + past_quotes(&s[i..], a, b);
        }
    }
    s.len()
}

// The place of the next `a` or `b` from `at` on that is not in quotes, or the end.
pub(crate) fn next_bare(s: &[u8], at: usize, a: u8, b: u8) -> usize
    ensures { result ≡ at + length (until_bare (λ c. eqb c a or eqb c b) false (drop at s.now)) }
{
    match s.get(at..) {
        Some(rest) => at + first_bare(rest, a, b),
        None => at,
    }
}
