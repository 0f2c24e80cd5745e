// A table that finds names of a text again, each by both its ends.
ghost use Rattle.std.specs.Prelude.{◌≡◌, map, not, ◌-◌, eqb, take, drop};
ghost use Rattle.octets.specs.Basics.{same};
ghost use Rattle.octets.specs.Groups.{cased};
ghost use Rattle.octets.specs.Optional.{said, when};
ghost use Rattle.octets.specs.Slots.{slot_of, slot_for, slot_between, name_in, slot_in, Enters};

use crate::names::{Case, same_in};

// Slots in a table: one for each answer of `slot_of`, and some more behind them.
pub const SLOTS: usize = 16640;

// Places whose distance from the first fits into half a slot.
const WIDE: usize = 4294967296;

// What became of a name that is entered into a table: it stood there, a free slot holds it now, or no slot can.
#[derive(Clone, Copy)]
pub enum Entering {
    Seen,
    Stored,
    Full,
}

// The slot from which on a name is looked for in a table, where names compare in one case.
fn slot_of(name: &[u8], case: Case) -> usize
    ensures { result ≡ slot_of (map (cased case) name.now) }
{
    let mut h: usize = 0;
    for &c in name {
        h = (h * 15541 + case.turn(c) as usize) % 16381;
    }
    h
}

// What a slot holds for a name with these ends, if they fit. A slot of the lent table is one word, and 0 a free one, as `Enters` says: an Option would take twice
// the fixed memory.
fn slot_for(from: usize, end: usize) -> Option<usize>
    ensures { said result ≡ when (not (eqb (slot_for from end) 0)) (slot_for from end) }
{
    if from <= end && end < WIDE && 0 < end {
        Some(from * WIDE + end)
    } else {
        None
    }
}

// Whether a slot holds this name.
fn is_held(s: &[u8], slot: usize, name: &[u8], case: Case) -> bool
    ensures { result ≡ same (map (cased case) name.now) (name_in case s.now slot) }
{
    let end = (slot % WIDE).min(s.len());
    let from = (slot / WIDE).min(end);
    same_in(name, &s[from..end], case)
}

// The slot that holds a name, or the free one for it, or the end of the table. By `position` and a closure it took a third longer.
fn slot_in(s: &[u8], table: &[usize], name: &[u8], case: Case) -> usize
    ensures { result ≡ slot_in (name_in case s.now) (map (cased case) name.now) table.now }
{
    let first = slot_of(name, case);
    for q in first..table.len() {
        let p = table[q];
        if p == 0 {
            return q;
        }
        if is_held(s, p, name, case) {
            return q;
        }
    }
    table.len().max(first)
}

// Enters the name that stands in s from a place up to another; names compare in one case.
pub fn enter(s: &[u8], from: usize, end: usize, case: Case, table: &mut [usize]) -> Entering
    ensures { Enters (name_in case s.now) (map (cased case) (take (end - from) (drop from s.now))) (slot_between s.now from end) table.old table.new result }
{
    let to = end.min(s.len());
    let at = from.min(to);
    let q = slot_in(s, table, &s[at..to], case);
    if table.len() <= q {
        return Entering::Full;
    }
    if table[q] != 0 {
        return Entering::Seen;
    }
    let Some(p) = slot_for(at, to) else {
        return Entering::Full;
    };
    table[q] = p;
    Entering::Stored
}
