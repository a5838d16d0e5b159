// The refusal of a comparison, found in the order of document 01.
ghost use Rattle.std.specs.Prelude.{◌≡◌, cond};
ghost use Rattle.strlib.specs.Refusal.{number_found};
ghost use Rattle.compare.specs.Compare.{translates, compare_refusal};

use strlib::{Refusal, StrPtr};

fn check_translation(translation: i64) -> Result<(), Refusal>
    ensures { number_found result ≡ cond (translates translation) 0 3 }
{
    strlib::check(
        strlib::both(
            StrPtr::TRANSLATION_MIN <= translation,
            translation <= StrPtr::TRANSLATION_MAX,
        ),
        Refusal::Range,
    )
}

pub fn check_compare(
    store: &[u8],
    string1: StrPtr,
    string2: StrPtr,
    code: usize,
    style: usize,
    translation: i64,
) -> Result<(), Refusal>
    ensures { number_found result ≡ compare_refusal store.now string1 string2 code style translation }
{
    let n = store.len();
    strlib::check_store(store)?;
    strlib::check(code <= StrPtr::CODE_MAX, Refusal::Range)?;
    strlib::check(style <= StrPtr::STYLE_MAX, Refusal::Range)?;
    check_translation(translation)?;
    strlib::check_good(n, string1)?;
    strlib::check_good(n, string2)?;
    strlib::check_readable(store, string1)?;
    strlib::check_readable(store, string2)
}
