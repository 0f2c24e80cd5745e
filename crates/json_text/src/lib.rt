// JSON: a reader onto a tape, and strings written.
#![tactic(auto)]

mod numbers;
mod quoting;
mod scanning;
mod strings;
mod values;

pub use quoting::{put_escaped, put_string};
pub use values::parse;

// Why a text has no tape.
#[derive(Clone, Copy)]
pub enum JsonError {
    TooDeep,
    NotJson,
    NoRoom,
}

// What a reader answers: the text behind what it read, and the place up to which it wrote the tape; or why it did not.
pub(crate) type JsonRead<'a> = Result<(&'a [u8], usize), JsonError>;

// The tags of the tape: numbers, since they are the octets that stand on it.
const NULL: u8 = 0;

const FALSE: u8 = 1;

const TRUE: u8 = 2;

const NUMBER: u8 = 3;

const STRING: u8 = 4;

const ARRAY: u8 = 5;

const OBJECT: u8 = 6;

const END: u8 = 255;
