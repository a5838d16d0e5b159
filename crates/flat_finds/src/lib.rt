// What was found, and what a burst's run carries, as C takes it: each answer a flat struct, with the refusal's number
// first and 0 for none. On a refusal the other fields are 0, but for what a burst's run carries and a label list's
// offset; where nothing was found too, but for the number read by a table's run.
#![tactic(auto)]

mod finds;
mod runs;

pub use finds::{FlatCharacter, FlatMatch, FlatName, FlatNote, FlatSplit, name_part};
pub use runs::{FlatBurst, burst};
