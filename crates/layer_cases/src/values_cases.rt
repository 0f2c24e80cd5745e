// Values to jCal: a case has a type, one or many, a property's name, the values in jCal or "refused", and the raw value, which may hold tabs itself.
use crate::parts::{before, behind, stands};
use jcal_values::put_tested;
use octets::same;
use types::code_named;
use values::{Sort, sort_of};

// What is written up to `end` is these values, with a comma before them.
fn are_values(out: &[u8], end: usize, want: &[u8]) -> bool {
    stands(out, 0, 1, b",") && stands(out, 1, end, want)
}

// The value is refused, or it gives these values.
fn gives(sort: Sort, many: bool, raw: &[u8], want: &[u8]) -> bool {
    let mut out = [0u8; 4096];
    match put_tested(&mut out, 0, sort, many, raw) {
        Some(end) => are_values(&out, end, want),
        None => same(want, b"refused"),
    }
}

pub(crate) fn holds(case: &[u8]) -> bool {
    let counted = behind(case, b'\t');
    let named = behind(counted, b'\t');
    let wanted = behind(named, b'\t');
    let sort = sort_of(before(named, b'\t'), code_named(before(case, b'\t')));
    let many = same(before(counted, b'\t'), b"many");
    gives(sort, many, behind(wanted, b'\t'), before(wanted, b'\t'))
}
