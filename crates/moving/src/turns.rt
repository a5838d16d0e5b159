// Characters reversed in place.
ghost use Rattle.std.specs.Prelude.{◌≡◌};
ghost use Rattle.moving.specs.Moving.{reversed_at};

// Puts n characters into the order from the last to the first.
pub fn reverse_in_place(store: &mut [u8], at: usize, n: usize)
    ensures { store.new ≡ reversed_at store.old at n }
{
    if strlib::is_within(store.len(), at, n) {
        store[at..at + n].reverse();
    }
}
