// Bounded copying: copy and append.
#![tactic(auto)]

use strlib::StrPtr;

mod copies;

ghost use Rattle.std.specs.Prelude.{◌≡◌, ◌+◌};
ghost use Rattle.moving.specs.Moving.{blanked};
ghost use Rattle.copying.specs.Copying.{gap, finished};

pub use copies::{append, copy};

// What a bounded copy gives: the destination with its new length, and whether nothing was cut.
#[derive(Clone, Copy)]
pub struct Wrote {
    pub to: StrPtr,
    pub completed: bool,
}

// How many blanks fill n characters to the old length.
#[tactic(auto, unfolding(crate::specs::Copying::gap))]
fn gap_of(pad: bool, old: usize, n: usize) -> usize
    ensures { result ≡ gap pad old n }
{
    if pad { old.saturating_sub(n) } else { 0 }
}

// Writes g blanks from behind the first n bytes of a room on, where these lie in the store.
#[tactic(auto, using(crate::proofs::Padding::pad_laws))]
fn pad_behind(store: &mut [u8], start: usize, n: usize, g: usize)
    ensures { store.new ≡ blanked store.old (start + n) g }
{
    if strlib::is_within(store.len(), start, n) {
        moving::fill_blanks(store, start + n, g)
    }
}

// Ends a bounded copy that wrote n characters at the front of the destination's room: pads them, and gives the answer.
// It takes any numbers; blanks that would lie outside the store are not written.
#[tactic(auto, using(crate::proofs::Padding::pad_laws))]
pub fn finish(store: &mut [u8], destination: StrPtr, n: usize, pad: bool, completed: bool) -> Wrote
    ensures { (result, store.new) ≡ finished store.old destination n pad completed }
{
    let g = gap_of(pad, destination.length, n);
    pad_behind(store, destination.start, n, g);
    let to = destination.sized(n + g);
    Wrote { to, completed }
}
