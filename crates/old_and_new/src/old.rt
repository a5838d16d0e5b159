// The leaf as it was before 02, W3, with its loops word for word, which are compared with today's: one character a turn,
// with the promise that `moving::move_characters` still makes.
ghost use Rattle.std.specs.Prelude.{◌≡◌, ◌+◌, ◌≤◌, length, take, drop};
ghost use Rattle.strlib.specs.Store.{put};
ghost use Rattle.moving.specs.Moving.{moved};

// From front to back, for a move towards the front.
fn move_down(store: &mut [u8], from: usize, to: usize, n: usize)
    requires { (from + n ≤ length store.old) × (to ≤ from) }
    ensures { store.new ≡ put store.old to (take n (drop from store.old)) }
{
    let mut i = 0;
    while i < n {
        store[to + i] = store[from + i];
        i += 1;
    }
}

// From back to front, for a move towards the back.
fn move_up(store: &mut [u8], from: usize, to: usize, n: usize)
    requires { (to + n ≤ length store.old) × (from ≤ to) }
    ensures { store.new ≡ put store.old to (take n (drop from store.old)) }
{
    let mut i = n;
    while 0 < i {
        i -= 1;
        store[to + i] = store[from + i];
    }
}

#[tactic(auto, using(crate::proofs::Single::single_laws))]
pub(crate) fn move_characters(store: &mut [u8], from: usize, to: usize, n: usize)
    ensures { store.new ≡ moved store.old from to n }
{
    if to <= from {
        if strlib::is_within(store.len(), from, n) {
            move_down(store, from, to, n)
        }
    } else {
        if strlib::is_within(store.len(), to, n) {
            move_up(store, from, to, n)
        }
    }
}
