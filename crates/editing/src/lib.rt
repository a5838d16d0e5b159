// Changing a string where it stands: replace, and reverse.
#![tactic(auto)]

mod replacement;
mod reversal;

pub use replacement::replace;
pub use reversal::{reverse, reverse_from};
