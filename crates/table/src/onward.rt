// A run that goes on from where it rested, for the crates above: any words, any bytes, any place.
ghost use Rattle.std.specs.Prelude.{◌≡◌};
ghost use Rattle.table.specs.Resume.{can_resume, resumed};
ghost use Rattle.table.specs.Inner.{note_of, walked_of};

use super::Progress;
use strlib::StrPtr;

#[tactic(auto, unfolding(crate::specs::Resume::can_resume))]
fn can_resume(text: &[u8], table: &[u16], state: usize, read: usize) -> bool
    ensures { result ≡ can_resume table.now text.now state read }
{
    super::runs::is_sized(table)
        && state < super::size_of(table)
        && strlib::are_characters(text)
        && strlib::is_within(StrPtr::STORE_MAX, read, text.len())
}

// The state is entered anew, and the text is read. None if the run cannot go on there, or meets words that are no
// table's.
#[tactic(auto, using(crate::proofs::Resuming::resume_laws))]
pub fn resume(text: &[u8], table: &[u16], from: Progress) -> Option<Progress>
    ensures { walked_of result ≡ resumed table.now text.now from.state from.read (note_of from.last) }
{
    if can_resume(text, table, from.state, from.read) {
        return super::read_on(text, table, super::size_of(table), from);
    }
    None
}
