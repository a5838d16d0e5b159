// Character sets.
ghost use Rattle.std.specs.Prelude.{◌≡◌, true, false};
ghost use Rattle.charset.specs.Rule.{tables_rule, characters_rule, find_rule};
ghost use Rattle.flat.specs.Strings.{flat_with};
ghost use Rattle.flat_finds.specs.Finds.{flat_character};
ghost use Rattle.flat.specs.Values.{flat_done};

use flat_finds::FlatCharacter;
use strlib::StrPtr;

#[unsafe(no_mangle)]
pub extern "C" fn strlib_clear_tables(block: &mut [u64], mask: u64) -> u8
    ensures { (result, block.new) ≡ flat_with flat_done (tables_rule false block.old mask) }
{
    flat::refusal_number(charset::clear_tables(block, mask))
}

#[unsafe(no_mangle)]
pub extern "C" fn strlib_fill_tables(block: &mut [u64], mask: u64) -> u8
    ensures { (result, block.new) ≡ flat_with flat_done (tables_rule true block.old mask) }
{
    flat::refusal_number(charset::fill_tables(block, mask))
}

#[unsafe(no_mangle)]
pub extern "C" fn strlib_add_characters(
    store: &[u8],
    string: StrPtr,
    block: &mut [u64],
    mask: u64,
) -> u8
    ensures { (result, block.new) ≡ flat_with flat_done (characters_rule true store.now string block.old mask) }
{
    flat::refusal_number(charset::add_characters(store, string, block, mask))
}

#[unsafe(no_mangle)]
pub extern "C" fn strlib_remove_characters(
    store: &[u8],
    string: StrPtr,
    block: &mut [u64],
    mask: u64,
) -> u8
    ensures { (result, block.new) ≡ flat_with flat_done (characters_rule false store.now string block.old mask) }
{
    flat::refusal_number(charset::remove_characters(store, string, block, mask))
}

#[unsafe(no_mangle)]
pub extern "C" fn strlib_find_first(
    store: &[u8],
    host: StrPtr,
    block: &[u64],
    mask: u64,
) -> FlatCharacter
    ensures { result ≡ flat_character (find_rule false store.now host block.now mask) }
{
    FlatCharacter::from(charset::find_first(store, host, block, mask))
}

#[unsafe(no_mangle)]
pub extern "C" fn strlib_find_last(
    store: &[u8],
    host: StrPtr,
    block: &[u64],
    mask: u64,
) -> FlatCharacter
    ensures { result ≡ flat_character (find_rule true store.now host block.now mask) }
{
    FlatCharacter::from(charset::find_last(store, host, block, mask))
}
