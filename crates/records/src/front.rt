// The record at the front of some bytes, `rest`, which may be short.
ghost use Rattle.std.specs.Prelude.{◌≡◌, ◌+◌, ◌*◌, get_or};
ghost use Rattle.strlib.specs.Refusal.{number_found};
ghost use Rattle.records.specs.Record.{kind_of, number_in, name_in, is_record, body_refusal};

use super::kinds;
use strlib::{Refusal, StrPtr};

fn byte_at(bytes: &[u8], i: usize) -> u8
    ensures { result ≡ get_or bytes.now i 0 }
{
    bytes.get(i).copied().unwrap_or(0)
}

#[tactic(auto, using(crate::proofs::Checking::front_laws))]
pub fn kind_of(rest: &[u8]) -> usize
    ensures { result ≡ kind_of rest.now }
{
    byte_at(rest, 0) as usize
}

// The number of two bytes, the high byte first.
fn two_bytes(high: u8, low: u8) -> usize
    ensures { result ≡ high * 256 + low }
{
    usize::from(u16::from_be_bytes([high, low]))
}

#[tactic(auto, using(crate::proofs::Checking::front_laws))]
pub fn number_of(rest: &[u8]) -> usize
    ensures { result ≡ number_in rest.now }
{
    two_bytes(byte_at(rest, 1), byte_at(rest, 2))
}

#[tactic(auto, using(crate::proofs::Checking::front_laws))]
pub fn name_in(rest: &[u8]) -> &[u8]
    ensures { result.now ≡ name_in rest.now }
{
    let width = kinds::width_of(kind_of(rest));
    strlib::text(rest, StrPtr::full(kinds::HEAD, width))
}

#[tactic(auto, using(crate::proofs::Checking::front_laws))]
pub fn is_record(rest: &[u8], kind: usize, number: usize) -> bool
    ensures { result ≡ is_record rest.now kind number }
{
    strlib::both(kind_of(rest) == kind, number_of(rest) == number)
}

// The checks of the record by itself, before it is known to be repeated.
pub fn check_body(rest: &[u8]) -> Result<(), Refusal>
    ensures { number_found result ≡ body_refusal rest.now }
{
    let kind = kind_of(rest);
    strlib::check(1 <= kinds::limit_of(kind), Refusal::Form)?;
    strlib::check(kinds::size_of(kind) <= rest.len(), Refusal::Short)?;
    strlib::check(kinds::is_number_of(kind, number_of(rest)), Refusal::Matrix)?;
    strlib::check(kinds::is_name(name_in(rest)), Refusal::Character)
}
