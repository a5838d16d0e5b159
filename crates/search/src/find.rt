// Where a listed string is found in a host.
ghost use Rattle.std.specs.Prelude.{◌≡◌, take};
ghost use Rattle.strlib.specs.Pointer.{texts};
ghost use Rattle.strlib.specs.Refusal.{number_found, sought_of, sought_answered};
ghost use Rattle.search.specs.Search.{is_prefix, plain_search};
ghost use Rattle.search.specs.Inner.{spot};
ghost use Rattle.search.specs.Rule.{search_refusal, given, search_by};

use strlib::{Refusal, StrList, StrPtr};

// String `number` of the list stands from pos1 to pos2.
#[derive(Clone, Copy)]
pub struct Spot {
    pub number: usize,
    pub pos1: usize,
    pub pos2: usize,
}

// Whether a string's characters stand at the front of a text. Of eight and more the first eight are compared at once,
// and mostly tell; of fewer the first few do. The rest goes by `==`, which is a call: the library's `starts_with` would
// be taken into the search's loops and use up their registers.
#[tactic(auto, using(crate::proofs::Prefixes::begin_laws))]
fn begins_with(text: &[u8], string: &[u8]) -> bool
    ensures { result ≡ is_prefix string.now text.now }
{
    if let (Some(eight), Some(front)) = (string.first_chunk::<8>(), text.first_chunk::<8>()) {
        return eight == front && string.len() <= text.len() && string == &text[..string.len()];
    }
    string.len() <= text.len() && string.iter().zip(text).all(|(s, t)| s == t)
}

// The smallest position, then the smallest number. The loops are nested and leave by a label: 01 fixes this form.
fn find(store: &[u8], text: &[u8], list: &StrList) -> Option<Spot>
    ensures { sought_of result ≡ given spot (plain_search (texts store.now (take list.now.count list.now.items)) text.now) }
{
    let mut found = None;
    'positions: for skipped in 0..=text.len() {
        let rest = &text[skipped..];
        for (k, p) in list.strings().iter().enumerate() {
            let string = strlib::text(store, *p);
            if begins_with(rest, string) {
                found = Some(Spot {
                    number: k + 1,
                    pos1: skipped + 1,
                    pos2: skipped + string.len() + 1,
                });
                break 'positions;
            }
        }
    }
    found
}

fn check_search(store: &[u8], host: StrPtr, list: &StrList) -> Result<(), Refusal>
    ensures { number_found result ≡ search_refusal store.now host list.now.items list.now.count }
{
    strlib::check_store(store)?;
    strlib::check(list.count <= StrPtr::LIST_MAX, Refusal::Range)?;
    strlib::check_good(store.len(), host)?;
    strlib::check_all_good(store, list)?;
    strlib::check_readable(store, host)?;
    strlib::check_all_readable(store, list)
}

// The search that every call makes: it gives positions, which a call turns into pointers.
pub fn find_listed(store: &[u8], host: StrPtr, list: &StrList) -> Result<Option<Spot>, Refusal>
    ensures { sought_answered result ≡ search_by spot store.now host list.now.items list.now.count }
{
    check_search(store, host, list)?;
    Ok(find(store, strlib::text(store, host), list))
}
