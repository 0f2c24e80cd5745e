// Turns iCalendar on standard input into jCal, by the default types and the rows of rows.hex in the working directory, if there is one.
#![tactic(auto)]

use std::io;

fn main(rt: HostRuntime) -> io::Result<()> {
    let mut text = [0u8; console::ROOM_FOR_TEXT];
    let mut rows = [0u8; console::ROOM_FOR_FILE];
    let mut out = [0u8; octets::MOST_TEXT];
    let n = console::read_text(&rt, &mut text);
    let m = console::load(&rt, b"rows.hex", &mut rows);
    let answer = jcal::to_jcal(&text[0..n], &rows[0..m], &mut out);
    let (_, printed) = console::print_answer(&rt, &out, answer);
    printed
}
