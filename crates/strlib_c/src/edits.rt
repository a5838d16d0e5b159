// Replacing and reversing.
ghost use Rattle.std.specs.Prelude.{◌≡◌};
ghost use Rattle.editing.specs.Replacing.{replace_rule};
ghost use Rattle.editing.specs.Reversing.{reverse_rule, reverse_from_rule};
ghost use Rattle.flat.specs.Strings.{flat_with, flat_string};

use flat::FlatString;
use strlib::StrPtr;

#[unsafe(no_mangle)]
pub extern "C" fn strlib_replace(
    store: &mut [u8],
    string1: StrPtr,
    string2: StrPtr,
    string3: StrPtr,
) -> FlatString
    ensures { (result, store.new) ≡ flat_with flat_string (replace_rule store.old string1 string2 string3) }
{
    FlatString::from(editing::replace(store, string1, string2, string3))
}

#[unsafe(no_mangle)]
pub extern "C" fn strlib_reverse(store: &mut [u8], string: StrPtr) -> FlatString
    ensures { (result, store.new) ≡ flat_with flat_string (reverse_rule store.old string) }
{
    FlatString::from(editing::reverse(store, string))
}

#[unsafe(no_mangle)]
pub extern "C" fn strlib_reverse_from(
    store: &mut [u8],
    destination: StrPtr,
    source: StrPtr,
) -> FlatString
    ensures { (result, store.new) ≡ flat_with flat_string (reverse_from_rule store.old destination source) }
{
    FlatString::from(editing::reverse_from(store, destination, source))
}
