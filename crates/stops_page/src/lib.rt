// What `stops` prints: its three lines of input, and the stops that they ask for.
#![tactic(auto)]

ghost use Rattle.std.specs.Prelude.{◌≡◌, ◌++◌, ◌+◌, ◌-◌, ◌/◌, ◌%◌, ◌≤◌, ◌<◌, length, take, drop, MatchOption};
ghost use Rattle.octets.specs.Optional.{said};
ghost use Rattle.octets.specs.Pen.{pen, Wrote};
ghost use Rattle.calendar.specs.Walk.{before_first};
ghost use Rattle.calendar.specs.declared.moments.Kind.TheVariants.{Utc};
ghost use Rattle.stop_list.specs.Stops.{list_of};
ghost use Rattle.recurrence_set.specs.Lists.{due};
ghost use Rattle.recurrence_set.specs.Searches.{meets_at};
ghost use Rattle.stop_list.specs.Runs.{stops_of, Live};
ghost use Rattle.stops_page.specs.Printing.{date_shown, time_shown, stop_shown, stops_shown, bad_input, head_shown, answer_shown, most_of, shown_for, chop, printed};
ghost use Rattle.stops_page.specs.Pages.{shown_length, third_shown};

use calendar::moments::{Kind, Moment};
use calendar::parts::find;
use calendar::rules::Frequency;
use octets::{MOST_TEXT, all_digits, leading_zeros, put, put_all, put_decimal, value_of};
use recurrence_set::first_from;
use stop_list::plans::make_plan;
use stop_list::runs::Run;
use stop_list::{Stop, list_stops};

// The last decimal digit of a number.
fn digit(n: u32) -> u8
    ensures { result ≡ 48 + n % 10 }
{
    b'0' + (n % 10) as u8
}

// A moment as it is shown in UTC.
fn moment_text(m: Moment) -> [u8; 20]
    ensures { result ≡ date_shown m.date ++ time_shown Utc m }
{
    let d = m.date;
    let decade = d.year / 10;
    let century = decade / 10;
    [
        digit(century / 10),
        digit(century),
        digit(decade),
        digit(d.year),
        b'-',
        digit(d.month / 10),
        digit(d.month),
        b'-',
        digit(d.day / 10),
        digit(d.day),
        b'T',
        digit(m.hour / 10),
        digit(m.hour),
        b':',
        digit(m.minute / 10),
        digit(m.minute),
        b':',
        digit(m.second / 10),
        digit(m.second),
        b'Z',
    ]
}

// How many of these octets are shown for a kind.
fn shown_length(k: Kind) -> usize
    ensures { result ≡ shown_length k }
{
    match k {
        Kind::Day => 10,
        Kind::Local => 19,
        Kind::Utc => 20,
    }
}

// Writes a stop on a line of its own.
fn put_stop(out: &mut [u8], at: usize, i: usize, s: Stop) -> usize
    ensures { Wrote (pen out.old at) (stop_shown i s) (pen out.new result) }
{
    let text = moment_text(s.moment);
    let n = shown_length(s.moment.kind);
    let a = put_decimal(out, at, i as u64);
    let b = put(out, a, b' ');
    let c = put_all(out, b, &text[..n]);
    put(out, c, b'\n')
}

// How many of every so many places there are among so many, the first being one of them.
fn count_steps(left: u32, step: u64) -> u64
    requires { (1 ≤ step) × (1 ≤ left) }
    ensures { result ≡ (left - 1) / step + 1 }
{
    (left as u64 - 1) / step + 1
}

// How many stops a run has, by a walk.
fn count_walked(run: Run) -> usize
    requires { Live run }
    ensures { result ≡ length (stops_of run) }
{
    let mut at = run.from;
    for n in 0..run.room {
        let Some(here) = first_from(run.series, at) else {
            return n;
        };
        at = here + 1;
    }
    run.room
}

// How many stops a run has, where at least `sure` places ahead meet its rule.
fn count_sure(run: Run, sure: u64) -> usize
    requires { Live run × (sure ≤ length (due (meets_at run.series) run.series.places run.from)) }
    ensures { result ≡ length (stops_of run) }
{
    if run.room as u64 <= sure {
        return run.room;
    }
    count_walked(run)
}

// How many stops a run has. A weekly rule is met again in each week that counts.
fn count_of(run: Run) -> usize
    requires { Live run }
    ensures { result ≡ length (stops_of run) }
{
    if run.room == 0 {
        return 0;
    }
    let rule = run.series.rule;
    let Some(here) = first_from(run.series, run.from) else {
        return 0;
    };
    let left = run.series.places - here;
    let interval = rule.interval as u64;
    match rule.frequency {
        Frequency::Hourly | Frequency::Daily => run.room.min(count_steps(left, interval) as usize),
        Frequency::Weekly => count_sure(run, count_steps(left, 7 * interval)),
        Frequency::Secondly | Frequency::Minutely | Frequency::Monthly | Frequency::Yearly => {
            count_walked(run)
        }
    }
}

// The run from its first stop on, so that this one is looked for once; with no room where there is none.
fn at_first(run: Run) -> Run
    requires { Live run }
    ensures { Live result × (stops_of result ≡ stops_of run) }
{
    if run.room == 0 {
        return run;
    }
    match first_from(run.series, run.from) {
        Some(from) => Run { from, ..run },
        None => Run { room: 0, ..run },
    }
}

// Writes the stops of a run.
fn put_stops(out: &mut [u8], at: usize, run: Run) -> usize
    requires { Live run }
    ensures { Wrote (pen out.old at) (stops_shown 1 (stops_of run)) (pen out.new result) }
{
    let mut to = at;
    for (i, stop) in run.enumerate() {
        to = put_stop(out, to, i + 1, stop);
    }
    to
}

// Writes that the input is bad.
fn put_bad(out: &mut [u8]) -> usize
    ensures { Wrote (pen out.old 0) bad_input (pen out.new result) }
{
    put_all(out, 0, b"bad input\n")
}

// Writes a line with a word and a number.
fn put_head(out: &mut [u8], word: &[u8], n: usize) -> usize
    ensures { Wrote (pen out.old 0) (head_shown word.now n) (pen out.new result) }
{
    let a = put_all(out, 0, word);
    let b = put_decimal(out, a, n as u64);
    put(out, b, b'\n')
}

// Prints the stops of a start and a rule, not more than so many.
pub fn print_list(out: &mut [u8], start: &[u8], rule: &[u8], most: usize) -> usize
    ensures { Wrote (pen out.old 0) (answer_shown (list_of start.now rule.now most)) (pen out.new result) }
{
    match make_plan(start, rule, most) {
        Ok(plan) => {
            let run = at_first(plan);
            let n = count_of(run);
            let at = put_head(out, b"stops ", n);
            // With room for no more than these, nothing is looked for behind the last.
            put_stops(out, at, Run { room: n, ..run })
        }
        Err(why) => put_head(out, b"refused ", why.number() as usize),
    }
}

// Writes the stops of a list. One walk for lists and runs would say in its clauses that an iterator ends, that its count fits and what it drains.
fn put_list(out: &mut [u8], at: usize, list: &[Stop]) -> usize
    ensures { Wrote (pen out.old at) (stops_shown 1 list.now) (pen out.new result) }
{
    let mut to = at;
    for (i, stop) in list.iter().enumerate() {
        to = put_stop(out, to, i + 1, *stop);
    }
    to
}

// Writes the stops of a start and a rule, as many as there are records lent for them.
fn put_page(out: &mut [u8], start: &[u8], rule: &[u8], list: &mut [Stop]) -> usize
    ensures { Wrote (pen out.old 0) (answer_shown (list_of start.now rule.now (length list.old))) (pen out.new result) }
{
    match list_stops(start, rule, list) {
        Ok(n) => {
            let at = put_head(out, b"stops ", n);
            put_list(out, at, &list[..n])
        }
        Err(why) => put_head(out, b"refused ", why.number() as usize),
    }
}

// The most stops, if a text names them: a number from 0 to 64 without leading zeros.
fn most_of(s: &[u8]) -> Option<usize>
    ensures { said result ≡ most_of s.now }
{
    if !all_digits(s) {
        return None;
    }
    if leading_zeros(s) != 0 {
        return None;
    }
    let n = value_of(s, 64);
    if 64 < n {
        return None;
    }
    Some(n as usize)
}

// A line without the CR of a CRLF.
fn chopped(s: &[u8]) -> &[u8]
    ensures { result.now ≡ chop s.now }
{
    match s {
        [front @ .., b'\r'] => front,
        _ => s,
    }
}

// Prints the stops of a start and a rule, not more than a line says.
fn print_for(out: &mut [u8], start: &[u8], rule: &[u8], most: &[u8]) -> usize
    ensures { Wrote (pen out.old 0) (shown_for start.now rule.now most.now) (pen out.new result) }
{
    let Some(n) = most_of(most) else {
        return put_bad(out);
    };
    let mut list = [Stop::FIRST; 64];
    put_page(out, start, rule, &mut list[..n])
}

// The first line of a text and what stands behind its LF, if it has an LF.
fn first_line(s: &[u8]) -> Option<(&[u8], &[u8])>
    ensures { MatchOption result (length s.now ≤ length (before_first 10 s.now)) (λ p. (p.0.now ≡ take (length (before_first 10 s.now)) s.now) × (p.1.now ≡ drop (length (before_first 10 s.now) + 1) s.now) × (length (before_first 10 s.now) < length s.now)) }
{
    let n = find(s, b'\n');
    if s.len() <= n {
        return None;
    }
    Some((&s[..n], &s[n + 1..]))
}

// Prints the answer for two lines and what stands behind them.
fn print_third(out: &mut [u8], a: &[u8], b: &[u8], s: &[u8]) -> usize
    ensures { Wrote (pen out.old 0) (third_shown a.now b.now s.now) (pen out.new result) }
{
    let start = chopped(a);
    let rule = chopped(b);
    let Some((most, rest)) = first_line(s) else {
        return print_for(out, start, rule, s);
    };
    if rest.is_empty() {
        return print_for(out, start, rule, chopped(most));
    }
    put_bad(out)
}

// Writes what `stops` prints for its input.
pub fn print_page(out: &mut [u8], text: &[u8]) -> usize
    ensures { Wrote (pen out.old 0) (printed text.now) (pen out.new result) }
{
    if MOST_TEXT < text.len() {
        return put_bad(out);
    }
    let Some((start, behind)) = first_line(text) else {
        return put_bad(out);
    };
    let Some((rule, rest)) = first_line(behind) else {
        return put_bad(out);
    };
    print_third(out, start, rule, rest)
}
