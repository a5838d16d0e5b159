// The checkpointed join.
ghost use Rattle.std.specs.Prelude.{◌≡◌};
ghost use Rattle.strlib.specs.Refusal.{answered, number_found};
ghost use Rattle.joining.specs.Resuming.{length_at, place_in, join_from_refusal, join_from_rule};

use super::{Place, Round};
use strlib::{Refusal, StrList, StrPtr};

// The length of the string at an index; 0 past the last.
#[tactic(auto, using(crate::proofs::Placing::length_in, crate::proofs::Placing::length_past))]
fn length_at(strings: &[StrPtr], i: usize) -> usize
    ensures { result ≡ length_at strings.now i }
{
    match strings.get(i) {
        Some(p) => p.length,
        None => 0,
    }
}

// Whether the place lies in the list or directly behind it, for any count.
#[tactic(auto, using(crate::proofs::Placing::place_laws))]
fn is_place(list: &StrList, from: Place) -> bool
    ensures { result ≡ place_in list.now.items list.now.count from }
{
    if from.string == 0 {
        return false;
    }
    if from.character == 0 {
        return false;
    }
    let i = from.string - 1;
    if list.count < i {
        return false;
    }
    from.character - 1 <= length_at(list.strings(), i)
}

#[tactic(auto, using(strlib::proofs::Answering::answer_laws), unfolding(crate::specs::Resuming::join_from_refusal))]
fn check_join_from(
    store: &[u8],
    destination: StrPtr,
    list: &StrList,
    from: Place,
) -> Result<(), Refusal>
    ensures { number_found result ≡ join_from_refusal store.now destination list.now.items list.now.count from }
{
    super::check_listed(store, destination, list)?;
    strlib::check(is_place(list, from), Refusal::Position)?;
    strlib::check_all_clear(destination, list)
}

// One round of a join: the destination then holds the joined characters from the given place on, cut at its maximum.
pub fn join_from(
    store: &mut [u8],
    destination: StrPtr,
    list: StrList,
    from: Place,
) -> Result<Round, Refusal>
    ensures { (answered result, store.new) ≡ join_from_rule store.old destination list.items list.count from }
{
    check_join_from(store, destination, &list, from)?;
    Ok(super::fill(
        store,
        destination,
        list.strings(),
        from.string - 1,
        from.character - 1,
    ))
}
