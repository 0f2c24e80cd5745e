// The page of `stops`: a case names a file of input and a file of what is printed for it.
use crate::parts::{before, behind, stands};
use std::rt::Files;

pub(crate) fn holds(rt: &impl Files, case: &[u8]) -> bool {
    let mut text = [0u8; console::ROOM_FOR_TEXT];
    let mut page = [0u8; 4096];
    let mut out = [0u8; 4096];
    let n = console::load(rt, before(case, b'\t'), &mut text);
    let m = console::load(rt, behind(case, b'\t'), &mut page);
    let end = stops_page::print_page(&mut out, &text[0..n]);
    stands(&out, 0, end, &page[0..m])
}
