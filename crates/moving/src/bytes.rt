// Bytes written into a store.
ghost use Rattle.std.specs.Prelude.{◌≡◌};
ghost use Rattle.moving.specs.Moving.{pasted};

// Writes the bytes of a slice.
pub fn write_bytes(store: &mut [u8], at: usize, bytes: &[u8])
    ensures { store.new ≡ pasted store.old at bytes.now }
{
    if strlib::is_within(store.len(), at, bytes.len()) {
        store[at..at + bytes.len()].copy_from_slice(bytes);
    }
}
