// The records of a label list, each a kind, a number and a name. Every call takes any bytes and any numbers; behind the
// end of a list bytes count as 0.
#![tactic(auto)]

mod front;
mod kinds;
mod lists;
mod news;

pub use front::{check_body, kind_of, name_in, number_of};
pub use kinds::{HEAD, LOUDSPEAKERS_MAX, MICROPHONES_MAX, check_key, size_of};
pub use lists::{find_record, record_at, rest_of};
pub use news::{check_new, write_record};
use strlib::Refusal;

// What a call on a label list is refused with, and the offset of the faulty record's kind byte, or the
// list's length where no record in it is at fault.
#[derive(Clone, Copy)]
pub struct Fault {
    pub refusal: Refusal,
    pub offset: usize,
}
