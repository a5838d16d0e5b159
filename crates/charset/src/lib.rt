// Character sets. Bit b of a character's word says whether the character is in table b; a mask names the tables whose
// bits it has.
#![tactic(auto)]

mod find;
mod tables;

ghost use Rattle.std.specs.Prelude.{◌≡◌};
ghost use Rattle.strlib.specs.Refusal.{number_found};
ghost use Rattle.charset.specs.Rule.{set_refusal};

pub use find::{find_first, find_last};
use strlib::{Refusal, StrPtr};
pub use tables::{add_characters, clear_tables, fill_tables, remove_characters};

// A host character: its position, counted from 1, and its code.
#[derive(Clone, Copy)]
pub struct CharAt {
    pub position: usize,
    pub code: u8,
}

// The checks of a call on a string.
fn check_set(store: &[u8], string: StrPtr, block: &[u64], mask: u64) -> Result<(), Refusal>
    ensures { number_found result ≡ set_refusal store.now string block.now mask }
{
    strlib::check_store(store)?;
    tables::check_block(block, mask)?;
    strlib::check_good(store.len(), string)?;
    strlib::check_readable(store, string)
}
