// Strings reversed, in place or from a source.
ghost use Rattle.std.specs.Prelude.{◌≡◌};
ghost use Rattle.strlib.specs.Refusal.{answered, number_found};
ghost use Rattle.editing.specs.Reversing.{reverse_refusal, reverse_rule, reverse_from_refusal, reverse_from_rule};

use strlib::{Refusal, StrPtr};

#[tactic(auto, using(strlib::proofs::Answering::answer_laws), unfolding(crate::specs::Reversing::reverse_refusal))]
fn check_reverse(store: &[u8], string: StrPtr) -> Result<(), Refusal>
    ensures { number_found result ≡ reverse_refusal store.now string }
{
    strlib::check_store(store)?;
    strlib::check_good(store.len(), string)?;
    strlib::check_readable(store, string)
}

pub fn reverse(store: &mut [u8], string: StrPtr) -> Result<StrPtr, Refusal>
    ensures { (answered result, store.new) ≡ reverse_rule store.old string }
{
    check_reverse(store, string)?;
    moving::reverse_in_place(store, string.start, string.length);
    Ok(string)
}

fn check_reverse_from(store: &[u8], destination: StrPtr, source: StrPtr) -> Result<(), Refusal>
    ensures { number_found result ≡ reverse_from_refusal store.now destination source }
{
    strlib::check_into(store, destination, source)?;
    strlib::check(strlib::is_clear(destination, source), Refusal::Overlap)?;
    strlib::check(source.length <= destination.maximum, Refusal::Room)
}

// The destination then holds the source's characters from the last to the first.
pub fn reverse_from(
    store: &mut [u8],
    destination: StrPtr,
    source: StrPtr,
) -> Result<StrPtr, Refusal>
    ensures { (answered result, store.new) ≡ reverse_from_rule store.old destination source }
{
    check_reverse_from(store, destination, source)?;
    let n = source.length;
    moving::move_characters(store, source.start, destination.start, n);
    moving::reverse_in_place(store, destination.start, n);
    Ok(destination.sized(n))
}
