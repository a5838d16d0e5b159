// What is written into a block: masked bits are turned on, or off, in every word or in the words of a string's
// characters.
ghost use Rattle.std.specs.Prelude.{◌≡◌, true, false};
ghost use Rattle.strlib.specs.Refusal.{number_found, answered};
ghost use Rattle.charset.specs.Inner.{Ready};
ghost use Rattle.charset.specs.Rule.{block_refusal, tables_rule, characters_rule};
ghost use Rattle.charset.specs.Sets.{turned, turned_all, turned_at};

use strlib::{Refusal, StrPtr};

// No character is in a masked table afterwards.
pub fn clear_tables(block: &mut [u64], mask: u64) -> Result<(), Refusal>
    ensures { (answered result, block.new) ≡ tables_rule false block.old mask }
{
    turn_tables(false, block, mask)
}

// Every character is in each masked table afterwards.
pub fn fill_tables(block: &mut [u64], mask: u64) -> Result<(), Refusal>
    ensures { (answered result, block.new) ≡ tables_rule true block.old mask }
{
    turn_tables(true, block, mask)
}

// The characters of a string are put into each masked table.
pub fn add_characters(
    store: &[u8],
    string: StrPtr,
    block: &mut [u64],
    mask: u64,
) -> Result<(), Refusal>
    ensures { (answered result, block.new) ≡ characters_rule true store.now string block.old mask }
{
    turn_characters(true, store, string, block, mask)
}

// The characters of a string are taken out of each masked table.
pub fn remove_characters(
    store: &[u8],
    string: StrPtr,
    block: &mut [u64],
    mask: u64,
) -> Result<(), Refusal>
    ensures { (answered result, block.new) ≡ characters_rule false store.now string block.old mask }
{
    turn_characters(false, store, string, block, mask)
}

// Which of the two is a `bool`, as in the contracts' `turned on mask word`: a closure in its place is no plainer.
fn turn(on: bool, mask: u64, word: u64) -> u64
    ensures { result ≡ turned on mask word }
{
    if on { word | mask } else { word & !mask }
}

fn turn_all(on: bool, mask: u64, block: &mut [u64])
    ensures { block.new ≡ turned_all on mask block.old }
{
    for word in block.iter_mut() {
        *word = turn(on, mask, *word);
    }
}

fn turn_at(on: bool, mask: u64, text: &[u8], block: &mut [u64])
    requires { Ready text.now block.old }
    ensures { block.new ≡ turned_at on mask text.now block.old }
{
    for x in text {
        let i = *x as usize;
        block[i] = turn(on, mask, block[i]);
    }
}

pub fn check_block(block: &[u64], mask: u64) -> Result<(), Refusal>
    ensures { number_found result ≡ block_refusal block.now mask }
{
    strlib::check(block.len() == StrPtr::BLOCK_WORDS, Refusal::Range)?;
    strlib::check(mask < StrPtr::MASK_END, Refusal::Range)
}

fn turn_tables(on: bool, block: &mut [u64], mask: u64) -> Result<(), Refusal>
    ensures { (answered result, block.new) ≡ tables_rule on block.old mask }
{
    check_block(block, mask)?;
    turn_all(on, mask, block);
    Ok(())
}

fn turn_characters(
    on: bool,
    store: &[u8],
    string: StrPtr,
    block: &mut [u64],
    mask: u64,
) -> Result<(), Refusal>
    ensures { (answered result, block.new) ≡ characters_rule on store.now string block.old mask }
{
    super::check_set(store, string, block, mask)?;
    turn_at(on, mask, strlib::text(store, string), block);
    Ok(())
}
