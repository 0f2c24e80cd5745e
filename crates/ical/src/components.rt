// Components tested and written, each with its sub-components by the same rule.
ghost use Rattle.std.specs.Prelude.{◌≡◌, true, ◌≤◌, length};
ghost use Rattle.types.specs.Laid.{table_in};
ghost use Rattle.tape.specs.Decode.{value_at};
ghost use Rattle.conversion_theory.specs.Tree.{properties_of};
ghost use Rattle.conversion_theory.specs.Skeleton.{is_component, component_from};
ghost use Rattle.conversion_theory.specs.ToIcal.{checked_all, component_lines};
ghost use Rattle.ical.specs.Converts.{Converts};

use super::lines::write_mark;
use super::property::convert_properties;
use octets::Refusal;
use tape::{END, after, leave, tag, text_at};

// Writes the component at `at`, which has at most `left` levels, up to the first property in fault. Recurrence rules and decoded values are laid into `rule`.
pub(crate) fn convert_component(
    t: &[u8],
    at: usize,
    left: usize,
    rows: &[u8],
    out: &mut [u8],
    to: usize,
    rule: &mut [u8],
) -> Result<(usize, usize), Refusal>
    requires { (is_component left (value_at t.now at) ≡ true) × (length t.now ≤ length rule.old) }
    ensures { Converts t.now at (checked_all (table_in rows.now) (properties_of (component_from left (value_at t.now at))))
        out.old to (component_lines (table_in rows.now) (component_from left (value_at t.now at))) out.new result }
{
    let a = after(t, at);
    let name = text_at(t, a);
    let begun = write_mark(out, to, b"BEGIN:", t, name);
    let (c, first) = convert_properties(t, name.next, rows, out, begun, rule)?;
    let mut i = after(t, c);
    let mut q = first;
    loop {
        if tag(t, i) == END {
            let e = after(t, i);
            let f = leave(t, e);
            let ended = write_mark(out, q, b"END:", t, name);
            return Ok((f, ended));
        }
        let (e, n) = convert_component(t, i, left - 1, rows, out, q, rule)?;
        i = e;
        q = n;
    }
}
