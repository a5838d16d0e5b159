// The answers as C takes them: each a flat struct, with the refusal's number first and 0 for none. On a refusal the
// other fields are 0, but for a cue line's word and a label list's offset. Each is made from an answer of the library
// by its `From`; flat_finds has those of a search, a run and a burst.
#![tactic(auto)]

mod strings;
mod values;

pub use strings::{FlatCopied, FlatLabel, FlatPart, FlatRound, FlatString};
pub use values::{FlatComparison, FlatCue, FlatNumber, FlatSize, refusal_number};
