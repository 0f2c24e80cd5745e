// Runs the cases of the layers below the conversions: JSON, content lines, values, the stop list. A file of data/ has a case in each line. Prints for
// each file what fails, and how many cases there are.
#![tactic(auto)]

mod content_cases;
mod json_cases;
mod parts;
mod stops_cases;
mod values_cases;

use parts::before;
use std::io;
use std::rt::Files;

// What the cases of a file are for.
#[derive(Clone, Copy)]
enum Layer {
    Json,
    Texts,
    Lines,
    Values,
    Stops,
}

fn holds(rt: &(impl Files + Print), layer: Layer, case: &[u8]) -> io::Result<bool> {
    match layer {
        Layer::Json => json_cases::holds(rt, case),
        Layer::Texts => Ok(content_cases::holds(true, case)),
        Layer::Lines => Ok(content_cases::holds(false, case)),
        Layer::Values => Ok(values_cases::holds(case)),
        Layer::Stops => Ok(stops_cases::holds(rt, case)),
    }
}

// Runs a case, and says so where it fails.
fn run(rt: &(impl Files + Print), layer: Layer, case: &[u8]) -> io::Result<()> {
    if !holds(rt, layer, case)? {
        rt.write_all(b"FAILED: ")?;
        rt.write_all(case)?;
        rt.write_all(b"\n")?;
    }
    Ok(())
}

// Runs the cases of a text, and answers how many there are.
fn run_all(rt: &(impl Files + Print), layer: Layer, text: &[u8]) -> io::Result<u64> {
    let mut n: u64 = 0;
    let mut at = 0;
    // A `for` over `split_inclusive` does not prove here: the module that the check makes for its iterator is refused.
    while at < text.len() {
        let case = before(&text[at..], b'\n');
        run(rt, layer, case)?;
        n += 1;
        at = at + case.len() + 1;
    }
    Ok(n)
}

// Runs the cases of a file, and prints its name and how many there are.
fn run_file(rt: &(impl Files + Print), path: &[u8], layer: Layer) -> io::Result<()> {
    let mut text = [0u8; octets::MOST_TEXT];
    let n = console::load(rt, path, &mut text);
    rt.write_all(path)?;
    rt.write_all(b"\n")?;
    let cases = run_all(rt, layer, &text[0..n])?;
    println!(rt; "{cases} cases")
}

fn main(rt: HostRuntime) -> io::Result<()> {
    run_file(&rt, b"json/index", Layer::Json)?;
    run_file(&rt, b"content/texts", Layer::Texts)?;
    run_file(&rt, b"content/lines", Layer::Lines)?;
    run_file(&rt, b"values/cases", Layer::Values)?;
    run_file(&rt, b"values/vectors", Layer::Values)?;
    run_file(&rt, b"stops/index", Layer::Stops)?;
    run_file(&rt, b"weekly_monthly/index", Layer::Stops)?;
    run_file(&rt, b"days/index", Layer::Stops)
}
