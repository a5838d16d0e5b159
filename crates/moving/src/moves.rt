// The one leaf through which characters are moved.
ghost use Rattle.std.specs.Prelude.{◌≡◌, ◌+◌, ◌-◌, ◌%◌, ◌<◌, ◌≤◌, ◌⊎◌, length, take, drop};
ghost use Rattle.strlib.specs.Store.{put};
ghost use Rattle.moving.specs.Moving.{moved};

// Byte by byte: with `copy_from_slice` a step of 64 was compiled to two copies, into its block and out of it.
fn paste(store: &mut [u8], at: usize, bytes: &[u8])
    requires { at + length bytes.now ≤ length store.old }
    ensures { store.new ≡ put store.old at bytes.now }
{
    for (i, byte) in bytes.iter().enumerate() {
        store[at + i] = *byte;
    }
}

// A step, as wide as the block, whatever that holds: all characters are read before one is written, so that it is right
// for every distance. Compiled, a step of eight is one move of eight bytes. The steps are told apart as 02, W3 and the
// edits of must-fail/ name them.
fn step(store: &mut [u8], from: usize, to: usize, block: &mut [u8])
    requires { (from + length block.old ≤ length store.old) × (to + length block.old ≤ length store.old) }
    ensures { store.new ≡ put store.old to (take (length block.old) (drop from store.old)) }
{
    paste(block, 0, &store[from..from + block.len()]);
    paste(store, to, block);
}

// From front to back, steps as wide as the block while so many are left: all characters but the last n % width. The
// target begins no later than the source, or behind all of it.
fn steps_down(store: &mut [u8], from: usize, to: usize, n: usize, block: &mut [u8])
    requires { (from + n ≤ length store.old) × (to + n ≤ length store.old) × ((to ≤ from) ⊎ (from + n ≤ to)) × (0 < length block.old) }
    ensures { store.new ≡ put store.old to (take (n - n % length block.old) (drop from store.old)) }
{
    let mut i = 0;
    while block.len() <= n - i {
        let k = block.len();
        step(store, from + i, to + i, block);
        i += k;
    }
}

// From back to front, steps as wide as the block while so many are left: all characters but the first n % width. The
// target begins no earlier than the source.
fn steps_up(store: &mut [u8], from: usize, to: usize, n: usize, block: &mut [u8])
    requires { (to + n ≤ length store.old) × (from ≤ to) × (0 < length block.old) }
    ensures { store.new ≡ put store.old (to + n % length block.old) (take (n - n % length block.old) (drop (from + n % length block.old) store.old)) }
{
    let mut left = n;
    while block.len() <= left {
        left -= block.len();
        step(store, from + left, to + left, block);
    }
}

// A move from front to back: eight a step while eight are left, the rest singly. Compiled, four such steps are one turn
// where the places lie 32 bytes apart or more, written in the store's order; a step of 64 would be written from its back
// to its front, which takes nearly twice as long where the target is not in the nearest cache.
fn move_down(store: &mut [u8], from: usize, to: usize, n: usize)
    requires { (from + n ≤ length store.old) × (to + n ≤ length store.old) × ((to ≤ from) ⊎ (from + n ≤ to)) }
    ensures { store.new ≡ put store.old to (take n (drop from store.old)) }
{
    let mut eight = [0u8; 8];
    let mut one = [0u8; 1];
    let rest = n % 8;
    steps_down(store, from, to, n, &mut eight);
    steps_down(store, from + (n - rest), to + (n - rest), rest, &mut one);
}

// A move from back to front: 64 a step while 64 are left, then eight while eight are left, the rest singly.
fn move_up(store: &mut [u8], from: usize, to: usize, n: usize)
    requires { (to + n ≤ length store.old) × (from ≤ to) }
    ensures { store.new ≡ put store.old to (take n (drop from store.old)) }
{
    let mut many = [0u8; 64];
    let mut eight = [0u8; 8];
    let mut one = [0u8; 1];
    let left = n % 64;
    let rest = left % 8;
    steps_up(store, from, to, n, &mut many);
    steps_up(store, from, to, left, &mut eight);
    steps_up(store, from, to, rest, &mut one);
}

// Moves n characters within the store, as they were at entry; the two places may overlap. From back to front only where
// the target begins within the source: else the store's order is the faster one.
pub fn move_characters(store: &mut [u8], from: usize, to: usize, n: usize)
    ensures { store.new ≡ moved store.old from to n }
{
    if strlib::is_within(store.len(), from, n) && strlib::is_within(store.len(), to, n) {
        // a target before the source wraps round, to more than n, since from + n lies within the store
        if to.wrapping_sub(from) < n {
            move_up(store, from, to, n)
        } else {
            move_down(store, from, to, n)
        }
    }
}
