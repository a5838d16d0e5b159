// The manual's worked examples of copying and joining, its sections 3.0, 3.2 and 5.2, with what the rules of document
// 01 give. The lines are as those of manual_examples.
//
// Out of document 01's scope, and so left out: alnstr (3.2), cmbstr's numeric mode and copchr (5.2), which are about
// words and bytes of other sizes.
#![tactic(auto)]

use saying::Out;
use std::fmt;

mod copies;

fn sections(out: &mut Out) -> fmt::Result {
    copies::section_3_0(out)?;
    copies::section_3_2(out)?;
    copies::section_5_2(out)
}

fn main() {
    let _ = sections(&mut Out);
}
