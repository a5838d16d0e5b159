// The answers to cue lines, and to an input that comes in pieces.
#![tactic(auto)]

mod lines;
mod pieces;

pub use lines::State;
pub use pieces::{feed, finish};
use strlib::StrPtr;

// Bytes that are held of a line: one more than a store may have, which is enough to refuse it with 3.
pub const HOLD: usize = StrPtr::STORE_MAX + 1;
