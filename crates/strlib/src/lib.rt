// The ground of the string library: string pointers, their limits, and the checks that every call makes.
#![tactic(auto)]

mod checks;
mod lists;
mod refusal;
mod strings;

ghost use Rattle.std.specs.Prelude.{◌≡◌};
ghost use Rattle.strlib.specs.Pointer.{good_in, pointer, sized, part_at};

pub use checks::{
    both, check, check_characters, check_good, check_into, check_or, check_readable, check_store,
};
pub use lists::{StrList, check_all_clear, check_all_good, check_all_readable};
pub use refusal::Refusal;
pub use strings::{are_characters, is_clear, is_within, text};

// A string pointer of document 01: where a string starts in its store, its length, and the maximum that its room takes.
// It crosses the C boundary as it is.
#[repr(C)]
#[derive(Clone, Copy)]
pub struct StrPtr {
    pub start: usize,
    pub length: usize,
    pub maximum: usize,
}

impl StrPtr {
    // Bytes in a store.
    pub const STORE_MAX: usize = 65536;

    // The last character's code.
    pub const CHARACTER_MAX: u8 = 127;

    // Strings in a list, and their characters together where it is translated into a table.
    pub const LIST_MAX: usize = 32;

    pub const LIST_CHARACTERS_MAX: usize = 240;

    // Words of sixteen bits in a table's room, and a table's states.
    pub const TABLE_MIN: usize = 31461;

    pub const STATES_MIN: usize = 2;

    pub const STATES_MAX: usize = 242;

    // The greatest code and the greatest style of a comparison.
    pub const CODE_MAX: usize = 5;

    pub const STYLE_MAX: usize = 2;

    // The range of a translation.
    pub const TRANSLATION_MIN: i64 = -127;

    pub const TRANSLATION_MAX: i64 = 127;

    // Words in a block of character sets, one a character; a mask is below 2^36.
    pub const BLOCK_WORDS: usize = 128;

    pub const MASK_END: u64 = 68719476736;

    pub const BASE_MIN: usize = 2;

    pub const BASE_MAX: usize = 10;

    // The range of 36 bits.
    pub const NUMBER_MIN: i64 = -34359738368;

    pub const NUMBER_MAX: i64 = 34359738367;

    // A pointer stores what it is given; whether it is good depends on the store of a call.
    #[tactic(auto, unfolding(crate::specs::Pointer::pointer))]
    pub fn new(start: usize, n: usize, maximum: usize) -> Self
        ensures { result ≡ pointer start n maximum }
    {
        Self {
            start,
            length: n,
            maximum,
        }
    }

    // A string that fills its room.
    pub fn full(start: usize, n: usize) -> Self
        ensures { result ≡ pointer start n n }
    {
        Self::new(start, n, n)
    }

    // The same room with another length.
    #[tactic(auto, unfolding(crate::specs::Pointer::pointer, crate::specs::Pointer::sized))]
    pub fn sized(self, n: usize) -> Self
        ensures { result ≡ sized self n }
    {
        Self::new(self.start, n, self.maximum)
    }

    // A part of the string, at a place of its own.
    #[tactic(auto, unfolding(crate::specs::Pointer::pointer))]
    pub fn part(self, start: usize, n: usize, maximum: usize) -> Self
        ensures { result ≡ part_at self start n maximum }
    {
        Self::new(start, n, maximum)
    }

    // Whether the pointer is good for a store of n bytes.
    #[tactic(auto, using(crate::proofs::Pointing::good_laws))]
    pub fn is_good(self, n: usize) -> bool
        ensures { result ≡ good_in n self }
    {
        if self.maximum < self.length {
            return false;
        }
        strings::is_within(n, self.start, self.maximum)
    }
}
