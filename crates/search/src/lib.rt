// Plain parallel search: the earliest position at which a listed string occurs, and of those that occur there the first
// listed.
#![tactic(auto)]

mod find;

ghost use Rattle.std.specs.Prelude.{◌≡◌, ◌+◌, ◌≤◌};
ghost use Rattle.strlib.specs.Pointer.{part_of};
ghost use Rattle.strlib.specs.Refusal.{sought_answered};
ghost use Rattle.search.specs.Inner.{Within};
ghost use Rattle.search.specs.Rule.{parts_of, split_of, search_rule, match_after_rule, before_match_rule};

use find::Spot;
use strlib::{Refusal, StrList, StrPtr};

// String `number` of the list was found: what lies before it, the match, and what lies after it.
#[derive(Clone, Copy)]
pub struct Match {
    pub number: usize,
    pub before: StrPtr,
    pub matched: StrPtr,
    pub after: StrPtr,
}

// The same with the host cut in two: before, and match with after; or before with match, and after.
#[derive(Clone, Copy)]
pub struct Split {
    pub number: usize,
    pub front: StrPtr,
    pub back: StrPtr,
}

// The listed strings are sought in the host. A list comes by value: 01 fixes this form.
pub fn search(store: &[u8], host: StrPtr, list: StrList) -> Result<Option<Match>, Refusal>
    ensures { sought_answered result ≡ search_rule store.now host list.items list.count }
{
    let found = find::find_listed(store, host, &list)?;
    Ok(found.map(|place| parts_of(host, place)))
}

// The same, giving before, and match with after.
pub fn search_match_after(
    store: &[u8],
    host: StrPtr,
    list: StrList,
) -> Result<Option<Split>, Refusal>
    ensures { sought_answered result ≡ match_after_rule store.now host list.items list.count }
{
    let found = find::find_listed(store, host, &list)?;
    Ok(found.map(|place| split_of(host, place.number, place.pos1)))
}

// The same, giving before with match, and after.
pub fn search_before_match(
    store: &[u8],
    host: StrPtr,
    list: StrList,
) -> Result<Option<Split>, Refusal>
    ensures { sought_answered result ≡ before_match_rule store.now host list.items list.count }
{
    let found = find::find_listed(store, host, &list)?;
    Ok(found.map(|place| split_of(host, place.number, place.pos2)))
}

// A part of the host, from `skip` behind its start.
fn part_of(host: StrPtr, skip: usize, n: usize, maximum: usize) -> StrPtr
    requires { host.start + skip ≤ 65536 }
    ensures { result ≡ part_of host skip n maximum }
{
    host.part(host.start + skip, n, maximum)
}

fn parts_of(host: StrPtr, place: Spot) -> Match
    requires { Within host place.pos1 place.pos2 }
    ensures { result ≡ parts_of host place.number place.pos1 place.pos2 }
{
    let Spot { number, pos1, pos2 } = place;
    let before = part_of(host, 0, pos1 - 1, pos1 - 1);
    let matched = part_of(host, pos1 - 1, pos2 - pos1, pos2 - pos1);
    let after = part_of(
        host,
        pos2 - 1,
        host.length + 1 - pos2,
        host.maximum + 1 - pos2,
    );
    Match {
        number,
        before,
        matched,
        after,
    }
}

fn split_of(host: StrPtr, number: usize, p: usize) -> Split
    requires { Within host p p }
    ensures { result ≡ split_of host number p }
{
    let front = part_of(host, 0, p - 1, p - 1);
    let back = part_of(host, p - 1, host.length + 1 - p, host.maximum + 1 - p);
    Split {
        number,
        front,
        back,
    }
}
