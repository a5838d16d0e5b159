// What a pointer names in a store. Each function takes any pointer, good or not.
ghost use Rattle.std.specs.Prelude.{◌≡◌};
ghost use Rattle.strlib.specs.Pointer.{text_of, characters, readable, within, apart, clear};

use super::StrPtr;

// Whether each byte is a character, 0 to 127. The greatest byte tells; a loop that never leaves early is compiled to
// take many bytes at a time.
#[tactic(auto, using(crate::proofs::Pointing::text_laws))]
pub fn are_characters(bytes: &[u8]) -> bool
    ensures { result ≡ characters bytes.now }
{
    let mut greatest = 0;
    for byte in bytes {
        greatest = (*byte).max(greatest);
    }
    greatest <= StrPtr::CHARACTER_MAX
}

// The characters of a string; of a pointer that is not good, what of them lies in the store.
#[tactic(auto, using(crate::proofs::Pointing::text_laws))]
pub fn text(store: &[u8], p: StrPtr) -> &[u8]
    ensures { result.now ≡ text_of store.now p }
{
    let n = store.len();
    let a = p.start;
    let m = p.length;
    if n < a {
        return &store[n..];
    }
    if n - a < m {
        return &store[a..];
    }
    let e = a + m;
    &store[a..e]
}

#[tactic(auto, using(crate::proofs::Pointing::readable_laws))]
pub fn is_readable(store: &[u8], p: StrPtr) -> bool
    ensures { result ≡ readable store.now p }
{
    are_characters(text(store, p))
}

// Whether the n bytes from `at` on lie in a store of this size.
pub fn is_within(size: usize, at: usize, n: usize) -> bool
    ensures { result ≡ within size at n }
{
    if size < n {
        return false;
    }
    at <= size - n
}

// Whether m bytes from a and n bytes from b share none.
#[tactic(auto, using(crate::proofs::Pointing::apart_laws))]
fn is_apart(a: usize, m: usize, b: usize, n: usize) -> bool
    ensures { result ≡ apart a m b n }
{
    if b < a {
        if m == 0 {
            return true;
        }
        return n <= a - b;
    }
    if n == 0 {
        return true;
    }
    m <= b - a
}

// Whether a source's characters share no byte with a destination's room.
#[tactic(auto, unfolding(crate::specs::Pointer::clear))]
pub fn is_clear(destination: StrPtr, source: StrPtr) -> bool
    ensures { result ≡ clear destination source }
{
    is_apart(
        source.start,
        source.length,
        destination.start,
        destination.maximum,
    )
}
