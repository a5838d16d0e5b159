// The checks of a call, made in the order of their numbers: the first that does not hold is the call's refusal. A
// string's characters are looked at only where nothing was refused before.
ghost use Rattle.std.specs.Prelude.{◌&&◌, ◌≡◌, cond, Ok, Err};
ghost use Rattle.strlib.specs.Pointer.{store_fits, good_in, characters, readable};
ghost use Rattle.strlib.specs.Refusal.{refusal_number, number_found};
ghost use Rattle.strlib.specs.Checks.{into_refusal};

use super::{Refusal, StrPtr, strings};

// Both tests as one, so that a range is one check.
pub fn both(a: bool, b: bool) -> bool
    ensures { result ≡ (a && b) }
{
    a && b
}

// One check, with any error: a refusal, a fault that carries more, any number.
pub fn check_or<E: Drop>(ok: bool, error: E) -> Result<(), E>
    ensures { result ≡ cond ok (Ok tt) (Err error) }
{
    if ok { Ok(()) } else { Err(error) }
}

// One check, with one of the paper's refusals. Written out: by a call of `check_or` each check takes a little longer.
pub fn check(ok: bool, refusal: Refusal) -> Result<(), Refusal>
    ensures { number_found result ≡ cond ok 0 (refusal_number refusal) }
{
    if ok { Ok(()) } else { Err(refusal) }
}

// The first check of a call: a store is at most 65,536 bytes.
#[tactic(auto, unfolding(crate::specs::Pointer::store_fits))]
pub fn check_store(store: &[u8]) -> Result<(), Refusal>
    ensures { number_found result ≡ cond (store_fits store.now) 0 3 }
{
    check(store.len() <= StrPtr::STORE_MAX, Refusal::Range)
}

pub fn check_good(n: usize, p: StrPtr) -> Result<(), Refusal>
    ensures { number_found result ≡ cond (good_in n p) 0 1 }
{
    check(p.is_good(n), Refusal::Pointer)
}

pub fn check_characters(bytes: &[u8]) -> Result<(), Refusal>
    ensures { number_found result ≡ cond (characters bytes.now) 0 2 }
{
    check(strings::are_characters(bytes), Refusal::Character)
}

#[tactic(auto, unfolding(crate::specs::Pointer::readable))]
pub fn check_readable(store: &[u8], p: StrPtr) -> Result<(), Refusal>
    ensures { number_found result ≡ cond (readable store.now p) 0 2 }
{
    check_characters(strings::text(store, p))
}

// The first checks of a call that writes a source's characters into a destination's room.
#[tactic(auto, using(crate::proofs::Answering::answer_laws), unfolding(crate::specs::Checks::into_refusal))]
pub fn check_into(store: &[u8], destination: StrPtr, source: StrPtr) -> Result<(), Refusal>
    ensures { number_found result ≡ into_refusal store.now destination source }
{
    check_store(store)?;
    check_good(store.len(), destination)?;
    check_good(store.len(), source)?;
    check_readable(store, source)
}
