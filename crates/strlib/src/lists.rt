// Lists: the first `count` of 32 pointers, and the checks over them, in their order.
ghost use Rattle.std.specs.Prelude.{◌≡◌, cond, length, take};
ghost use Rattle.strlib.specs.Pointer.{good_in, readable, clear, all};
ghost use Rattle.strlib.specs.Refusal.{number_found};

use super::{Refusal, StrPtr, checks, strings};

// A list as it is passed. It crosses the C boundary as it is.
#[repr(C)]
#[derive(Clone, Copy)]
pub struct StrList {
    pub items: [StrPtr; StrPtr::LIST_MAX],
    pub count: usize,
}

impl StrList {
    // The strings that are listed, 32 at most.
    pub fn strings(&self) -> &[StrPtr]
        ensures { result.now ≡ take self.now.count self.now.items }
    {
        &self.items[..self.count.min(StrPtr::LIST_MAX)]
    }
}

pub fn check_all_good(store: &[u8], list: &StrList) -> Result<(), Refusal>
    ensures { number_found result ≡ cond (all (good_in (length store.now)) (take list.now.count list.now.items)) 0 1 }
{
    checks::check(
        list.strings().iter().all(|p| p.is_good(store.len())),
        Refusal::Pointer,
    )
}

pub fn check_all_readable(store: &[u8], list: &StrList) -> Result<(), Refusal>
    ensures { number_found result ≡ cond (all (readable store.now) (take list.now.count list.now.items)) 0 2 }
{
    checks::check(
        list.strings()
            .iter()
            .all(|p| strings::is_readable(store, *p)),
        Refusal::Character,
    )
}

pub fn check_all_clear(destination: StrPtr, list: &StrList) -> Result<(), Refusal>
    ensures { number_found result ≡ cond (all (clear destination) (take list.now.count list.now.items)) 0 5 }
{
    checks::check(
        list.strings()
            .iter()
            .all(|p| strings::is_clear(destination, *p)),
        Refusal::Overlap,
    )
}
