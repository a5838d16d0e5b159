// What writes bytes within a store. Every call takes any numbers; outside the store it writes nothing.
#![tactic(auto)]

mod blanks;
mod bytes;
mod moves;
mod turns;

ghost use Rattle.std.specs.Prelude.{◌≡◌, min};

pub use blanks::fill_blanks;
pub use bytes::write_bytes;
pub use moves::move_characters;
pub use turns::reverse_in_place;

pub fn least(m: usize, n: usize) -> usize
    ensures { result ≡ min m n }
{
    m.min(n)
}
