// The records of a list, which lie one behind the other.
ghost use Rattle.std.specs.Prelude.{◌≡◌, drop};
ghost use Rattle.records.specs.Record.{record_at, records, record_of};

use super::{front, kinds};

// How many records begin in a list.
#[tactic(auto, using(crate::proofs::Seeking::list_laws))]
fn count(list: &[u8]) -> usize
    ensures { result ≡ records list.now }
{
    let size = kinds::size_of(front::kind_of(list));
    (list.len() + (size - 1)) / size
}

// What is behind the first `at` bytes.
#[tactic(auto, using(crate::proofs::Seeking::list_laws))]
pub fn rest_of(list: &[u8], at: usize) -> &[u8]
    ensures { result.now ≡ drop at list.now }
{
    if list.len() < at {
        return &list[list.len()..];
    }
    &list[at..]
}

// Record k, counted from 0, with all that is behind it.
#[tactic(auto, using(crate::proofs::Seeking::list_laws))]
pub fn record_at(list: &[u8], k: usize) -> &[u8]
    ensures { result.now ≡ record_at list.now k }
{
    let size = kinds::size_of(front::kind_of(list));
    if list.len() / size < k {
        return rest_of(list, list.len());
    }
    rest_of(list, size * k)
}

// The record of this kind and number, counted from 1; 0 for none.
pub fn find_record(list: &[u8], kind: usize, number: usize) -> usize
    ensures { result ≡ record_of list.now kind number (records list.now) }
{
    for k in (0..count(list)).rev() {
        if front::is_record(record_at(list, k), kind, number) {
            return k + 1;
        }
    }
    0
}
