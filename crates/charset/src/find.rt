// The first and the last host character that is in a masked table.
ghost use Rattle.std.specs.Prelude.{◌≡◌, true, false, ◌<◌, length};
ghost use Rattle.strlib.specs.Refusal.{sought_of, sought_answered};
ghost use Rattle.charset.specs.Inner.{Ready};
ghost use Rattle.charset.specs.Rule.{found_from, find_rule};
ghost use Rattle.charset.specs.Sets.{in_tables};

use super::CharAt;
use strlib::{Refusal, StrPtr};

pub fn find_first(
    store: &[u8],
    host: StrPtr,
    block: &[u64],
    mask: u64,
) -> Result<Option<CharAt>, Refusal>
    ensures { sought_answered result ≡ find_rule false store.now host block.now mask }
{
    super::check_set(store, host, block, mask)?;
    Ok(first(strlib::text(store, host), block, mask))
}

pub fn find_last(
    store: &[u8],
    host: StrPtr,
    block: &[u64],
    mask: u64,
) -> Result<Option<CharAt>, Refusal>
    ensures { sought_answered result ≡ find_rule true store.now host block.now mask }
{
    super::check_set(store, host, block, mask)?;
    Ok(last(strlib::text(store, host), block, mask))
}

#[tactic(auto, unfolding(crate::specs::Sets::in_tables))]
fn in_tables(block: &[u64], mask: u64, x: u8) -> bool
    requires { x < length block.now }
    ensures { result ≡ in_tables block.now mask x }
{
    let i = x as usize;
    0 < block[i] & mask
}

// This and `last` differ in one call: one function that is passed the call as a closure is no plainer.
fn first(text: &[u8], block: &[u64], mask: u64) -> Option<CharAt>
    requires { Ready text.now block.now }
    ensures { sought_of result ≡ found_from false block.now mask 1 text.now }
{
    let first = text.iter().position(|x| in_tables(block, mask, *x))?;
    Some(CharAt {
        position: first + 1,
        code: text[first],
    })
}

fn last(text: &[u8], block: &[u64], mask: u64) -> Option<CharAt>
    requires { Ready text.now block.now }
    ensures { sought_of result ≡ found_from true block.now mask 1 text.now }
{
    let last = text.iter().rposition(|x| in_tables(block, mask, *x))?;
    Some(CharAt {
        position: last + 1,
        code: text[last],
    })
}
