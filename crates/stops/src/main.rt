// Lists the stops of a rule: reads a start, a rule and the most stops from standard input, a line each.
#![tactic(auto)]

use std::io;

fn main(rt: HostRuntime) -> io::Result<()> {
    let mut text = [0u8; console::ROOM_FOR_TEXT];
    let n = console::read_text(&rt, &mut text);
    let mut out = [0u8; 4096];
    let m = stops_page::print_page(&mut out, &text[0..n]);
    rt.write_all(&out[0..m])
}
