// The desk: cue lines and the label list. It stands above the string library and sees only its promises.
#![tactic(auto)]

mod cue;
mod label;

pub use cue::{Cue, CueFault, read_cue};
pub use label::{LabelPlace, add_label, find_label, label_name, read_labels};
