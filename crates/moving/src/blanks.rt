// Blanks written into a store.
ghost use Rattle.std.specs.Prelude.{◌≡◌};
ghost use Rattle.moving.specs.Moving.{blanked};

// Writes n blanks.
pub fn fill_blanks(store: &mut [u8], at: usize, n: usize)
    ensures { store.new ≡ blanked store.old at n }
{
    if strlib::is_within(store.len(), at, n) {
        store[at..at + n].fill(b' ');
    }
}
