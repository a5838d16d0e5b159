// The label list. Its records are the crate `records`.
mod add;
mod find;
mod read;

pub use add::add_label;
pub use find::{LabelPlace, find_label, label_name};
pub use read::read_labels;
