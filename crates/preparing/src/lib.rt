// The refusals and choices of a translation, each for any input: what refuses it, how many characters its list has, how
// many strings count in a row, and what the row's default is: 01, "The search table".
#![tactic(auto)]

ghost use Rattle.std.specs.Prelude.{◌≡◌, length};
ghost use Rattle.strlib.specs.Refusal.{number_found};
ghost use Rattle.states.specs.Fill.{limit, if_open, root_to};
ghost use Rattle.preparing.specs.Listed.{translate_refusal, total_of};
ghost use Rattle.preparing.specs.Inner.{source_refusal};

use strlib::{Refusal, StrList, StrPtr};

// ---- the list

// The characters of so many strings together, 0 where the store or their number is over its limit.
pub fn total_of(store: &[u8], strings: &[StrPtr]) -> usize
    ensures { result ≡ total_of store.now strings.now (length strings.now) }
{
    if StrPtr::STORE_MAX < store.len() || StrPtr::LIST_MAX < strings.len() {
        return 0;
    }
    let mut sum = 0;
    for p in strings {
        sum += strlib::text(store, *p).len();
    }
    sum
}

// The same of a list as it is passed, with any count.
#[tactic(auto, using(crate::proofs::Listing::listed_laws))]
pub fn total_listed(store: &[u8], list: &StrList) -> usize
    ensures { result ≡ total_of store.now list.now.items list.now.count }
{
    if StrPtr::LIST_MAX < list.count {
        return 0;
    }
    total_of(store, list.strings())
}

fn check_list(store: &[u8], list: &StrList) -> Result<(), Refusal>
    ensures { number_found result ≡ source_refusal store.now list.now.items list.now.count }
{
    strlib::check_store(store)?;
    strlib::check(list.count <= StrPtr::LIST_MAX, Refusal::Range)?;
    strlib::check_all_good(store, list)?;
    strlib::check_all_readable(store, list)
}

// What refuses a translation into so many words.
pub fn check_translate(store: &[u8], list: &StrList, words: usize) -> Result<(), Refusal>
    ensures { number_found result ≡ translate_refusal store.now list.now.items list.now.count words }
{
    check_list(store, list)?;
    let n = total_listed(store, list);
    strlib::check(n <= StrPtr::LIST_CHARACTERS_MAX, Refusal::Translation)?;
    strlib::check(StrPtr::TABLE_MIN <= words, Refusal::Translation)
}

// ---- a row, by the number of the string that closes its text (0 for none)

// How many strings count: those before the closing one.
pub fn limit_of(closing: usize, count: usize) -> usize
    ensures { result ≡ limit closing count }
{
    if closing == 0 { count } else { closing - 1 }
}

// The state n where no string closes the text, else the stop.
pub fn if_open(closing: usize, n: usize) -> usize
    ensures { result ≡ if_open closing n }
{
    if closing == 0 { n } else { 0 }
}

// Where the start goes with a character that no string begins with.
pub fn root_to(count: usize, closing: usize) -> u16
    ensures { result ≡ root_to count closing }
{
    if count == 0 {
        return 0;
    }
    if closing == 0 { 1 } else { 0 }
}
