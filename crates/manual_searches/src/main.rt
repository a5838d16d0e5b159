// The manual's worked examples of its sections 3.4 and 5.3 to 5.5: searches, character sets and conversions of numbers,
// with what the rules of document 01 give. The lines are as those of manual_examples. No example compiles a list of
// strings: the lists of 3.4 go through a table in table_examples.
//
// Out of document 01's scope, and so left out: mapstr (5.5), and fndstr's anchor for strings of more than one character
// (5.3), of which the manual has no example. cnvstr's filling with blanks or zeros is no part of document 01's writing,
// and the lines say so.
#![tactic(auto)]

use saying::Out;
use std::fmt;

mod cuts;
mod numbers;
mod searching;
mod sets;

fn sections(out: &mut Out) -> fmt::Result {
    searching::section_3_4(out)?;
    searching::section_5_3(out)?;
    sets::section_5_4(out)?;
    numbers::section_5_5(out)
}

fn main() {
    let _ = sections(&mut Out);
}
