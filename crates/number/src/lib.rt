// Numbers in base 2 to 10, read from a string and written into one.
#![tactic(auto)]

mod limits;
mod reader;
mod writer;

pub use reader::read;
pub use writer::write;
