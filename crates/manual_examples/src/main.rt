// The manual's worked examples of comparing, cutting and replacing, its sections 3.1, 3.3, 3.5 and 5.1, with what the
// rules of documents 01 and 02 give; those of copying are in manual_copies, those that search or convert in
// manual_searches, where a line says so in brackets if the manual prints another answer. A line is the section, the
// manual's statement number or its name for the answer, and the answer: a string as its characters, its length and its
// maximum.
//
// Literals there are padded to whole words of five characters; np('abc') is the three characters alone. A string
// without a maximum has room enough here. The manual's runs of blanks have come down as one blank: blanks are counted
// from the lengths that it states.
//
// Out of document 01's scope, and so left out: the lengths of literals (3.5).
#![tactic(auto)]

use saying::Out;
use std::fmt;

mod comparing;
mod replacing;
mod substrings;

fn sections(out: &mut Out) -> fmt::Result {
    comparing::section_3_1(out)?;
    substrings::section_3_3(out)?;
    replacing::section_3_5(out)?;
    comparing::section_5_1(out)
}

fn main() {
    let _ = sections(&mut Out);
}
