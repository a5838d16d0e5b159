// Searching a host for the strings of a list.
ghost use Rattle.std.specs.Prelude.{◌≡◌};
ghost use Rattle.search.specs.Rule.{search_rule, match_after_rule, before_match_rule};
ghost use Rattle.flat_finds.specs.Finds.{flat_match, flat_split};

use flat_finds::{FlatMatch, FlatSplit};
use strlib::{StrList, StrPtr};

#[unsafe(no_mangle)]
pub extern "C" fn strlib_search(store: &[u8], host: StrPtr, list: StrList) -> FlatMatch
    ensures { result ≡ flat_match (search_rule store.now host list.items list.count) }
{
    FlatMatch::from(search::search(store, host, list))
}

#[unsafe(no_mangle)]
pub extern "C" fn strlib_search_match_after(store: &[u8], host: StrPtr, list: StrList) -> FlatSplit
    ensures { result ≡ flat_split (match_after_rule store.now host list.items list.count) }
{
    FlatSplit::from(search::search_match_after(store, host, list))
}

#[unsafe(no_mangle)]
pub extern "C" fn strlib_search_before_match(store: &[u8], host: StrPtr, list: StrList) -> FlatSplit
    ensures { result ≡ flat_split (before_match_rule store.now host list.items list.count) }
{
    FlatSplit::from(search::search_before_match(store, host, list))
}
