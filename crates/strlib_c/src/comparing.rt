// Comparing two strings.
ghost use Rattle.std.specs.Prelude.{◌≡◌};
ghost use Rattle.compare.specs.Compare.{compare_rule};
ghost use Rattle.flat.specs.Values.{flat_comparison};

use flat::FlatComparison;
use strlib::StrPtr;

#[unsafe(no_mangle)]
pub extern "C" fn strlib_compare(
    store: &[u8],
    string1: StrPtr,
    string2: StrPtr,
    code: usize,
    style: usize,
    translation: i64,
) -> FlatComparison
    ensures { result ≡ flat_comparison (compare_rule store.now string1 string2 code style translation) }
{
    FlatComparison::from(compare::compare(store, string1, string2, code, style, translation))
}
