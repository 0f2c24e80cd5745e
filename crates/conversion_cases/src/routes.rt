// The four routes of a property that only the newer table lists: to jCal under the older or the newer, back under either. Prints the jCal and the
// iCalendar of each, for a value that is sent as it is and for the same sent encoded.
use std::io;

const SENT: [u8; 59] = *b"BEGIN:VCALENDAR\r\nX-TROUGH:20240229T060000Z\r\nEND:VCALENDAR\r\n";

// The same value, sent encoded.
const ENCODED: [u8; 83] =
    *b"BEGIN:VCALENDAR\r\nX-TROUGH;ENCODING=BASE64:MjAyNDAyMjlUMDYwMDAwWg==\r\nEND:VCALENDAR\r\n";

// X-TROUGH is a date-time, one value.
const NEWER: [u8; 21] = *b"0501582D54524F554748\n";

fn come_back(rt: &impl Print, text: &[u8], back: &[u8]) -> io::Result<()> {
    let mut out = [0u8; 1024];
    let r = ical::to_ical(text, back, &mut out);
    let (_, printed) = console::print_answer(rt, &out, r);
    printed
}

fn route(rt: &impl Print, text: &[u8], there: &[u8], back: &[u8]) -> io::Result<()> {
    let mut out = [0u8; 1024];
    let r = jcal::to_jcal(text, there, &mut out);
    let (_, printed) = console::print_answer(rt, &out, r);
    printed?;
    rt.write_all(b"\n")?;
    if let Ok(n) = r {
        if n <= 1024 {
            return come_back(rt, &out[0..n], back);
        }
    }
    Ok(())
}

fn run_all(rt: &impl Print, text: &[u8]) -> io::Result<()> {
    route(rt, text, b"", b"")?;
    route(rt, text, b"", &NEWER)?;
    route(rt, text, &NEWER, b"")?;
    route(rt, text, &NEWER, &NEWER)
}

pub(crate) fn run(rt: &impl Print) -> io::Result<()> {
    run_all(rt, &SENT)?;
    run_all(rt, &ENCODED)
}
