// The parts of a case, and what a buffer holds.
ghost use Rattle.std.specs.Prelude.{◌≤◌, length};

use calendar::parts::find;
use octets::same;

// What stands before the first `sep`.
pub(crate) fn before(s: &[u8], sep: u8) -> &[u8]
    ensures { length result.now ≤ length s.now }
{
    let e = find(s, sep);
    if e < s.len() {
        return &s[0..e];
    }
    s
}

// What lies behind it.
pub(crate) fn behind(s: &[u8], sep: u8) -> &[u8] {
    let e = find(s, sep);
    if e < s.len() {
        return &s[e + 1..];
    }
    &s[s.len()..]
}

// Whether that stands from one place to another.
pub(crate) fn stands(s: &[u8], from: usize, to: usize, want: &[u8]) -> bool {
    from <= to && to <= s.len() && same(&s[from..to], want)
}
