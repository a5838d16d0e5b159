// Bounded copying.
ghost use Rattle.std.specs.Prelude.{◌≡◌};
ghost use Rattle.copying.specs.Copying.{copy_rule, append_rule};
ghost use Rattle.joining.specs.Joining.{join_rule};
ghost use Rattle.joining.specs.Resuming.{join_from_rule};
ghost use Rattle.flat.specs.Strings.{flat_with, flat_copied, flat_round};

use flat::{FlatCopied, FlatRound};
use joining::Place;
use strlib::{StrList, StrPtr};

#[unsafe(no_mangle)]
pub extern "C" fn strlib_copy(
    store: &mut [u8],
    destination: StrPtr,
    source: StrPtr,
    pad: bool,
) -> FlatCopied
    ensures { (result, store.new) ≡ flat_with flat_copied (copy_rule store.old destination source pad) }
{
    FlatCopied::from(copying::copy(store, destination, source, pad))
}

#[unsafe(no_mangle)]
pub extern "C" fn strlib_append(store: &mut [u8], destination: StrPtr, source: StrPtr) -> FlatCopied
    ensures { (result, store.new) ≡ flat_with flat_copied (append_rule store.old destination source) }
{
    FlatCopied::from(copying::append(store, destination, source))
}

#[unsafe(no_mangle)]
pub extern "C" fn strlib_join(
    store: &mut [u8],
    destination: StrPtr,
    list: StrList,
    pad: bool,
) -> FlatCopied
    ensures { (result, store.new) ≡ flat_with flat_copied (join_rule store.old destination list.items list.count pad) }
{
    FlatCopied::from(joining::join(store, destination, list, pad))
}

#[unsafe(no_mangle)]
pub extern "C" fn strlib_join_from(
    store: &mut [u8],
    destination: StrPtr,
    list: StrList,
    from: Place,
) -> FlatRound
    ensures { (result, store.new) ≡ flat_with flat_round (join_from_rule store.old destination list.items list.count from) }
{
    FlatRound::from(joining::join_from(store, destination, list, from))
}
