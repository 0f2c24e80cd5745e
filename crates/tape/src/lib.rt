// Navigation over the tape of a JSON value.
#![tactic(auto)]

mod keys;
mod sounding;
mod walking;

pub use sounding::is_sound;
pub use walking::{after, behind, count, leave, tag, text_at};

// The tags of values, and the end of a text or a group.
pub const NULL: u8 = 0;

pub const FALSE: u8 = 1;

pub const TRUE: u8 = 2;

pub const NUMBER: u8 = 3;

pub const STRING: u8 = 4;

pub const ARRAY: u8 = 5;

pub const OBJECT: u8 = 6;

pub const END: u8 = 255;

// The octets of a number or a string, and the place behind it.
#[derive(Clone, Copy)]
pub struct Text {
    pub from: usize,
    pub to: usize,
    pub next: usize,
}
