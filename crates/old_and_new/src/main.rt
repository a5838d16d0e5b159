// 02, W3: the loops of before beside today's leaf. Each move is made by both, over the same bytes; a line for each
// length says whether the two stores are then alike to the last byte, and has a sum over the store, so that what is
// printed also depends on what was moved.
//
// Of each length the moves go by 0 to 9, 63 to 65 and 1,023 to 1,025 places; so far that the two places share as many
// bytes, where the length and the store allow it; and from one end of the store to the other. Each goes towards the
// front and towards the back, at the store's front and at its end. Behind the lengths about eight, 64 and 128 stand some
// long ones.
#![tactic(auto)]

mod old;

use saying::{Out, Spaced};
use std::fmt;
use std::fmt::Write;

// The bytes of a store here.
const STORE: usize = 4096;

const LENGTHS: [usize; 33] = [
    0, 1, 2, 3, 4, 5, 6, 7, 8, 9, 10, 11, 12, 13, 14, 15, 16, 17, 63, 64, 65, 127, 128, 129, 1023,
    1024, 1025, 1031, 1032, 1033, 2047, 2048, 2049,
];

const DISTANCES: [usize; 16] = [0, 1, 2, 3, 4, 5, 6, 7, 8, 9, 63, 64, 65, 1023, 1024, 1025];

// Of all moves so far: whether old and new left the same bytes, whether new changed none, and a sum.
#[derive(Clone, Copy)]
struct Seen {
    alike: bool,
    still: bool,
    sum: usize,
}

// Bytes differ unless a multiple of 251 places lies between them.
fn paint(store: &mut [u8]) {
    for (i, byte) in store.iter_mut().enumerate() {
        *byte = (i % 251) as u8;
    }
}

// A sum in which the place of a byte counts.
fn weigh_one(sum: usize, x: u8) -> usize {
    (31 * (sum % 65521) + x as usize) % 65521
}

fn weigh(sum: usize, bytes: &[u8]) -> usize {
    bytes.iter().fold(sum, |sum, x| weigh_one(sum, *x))
}

fn trial(seen: Seen, from: usize, to: usize, n: usize) -> Seen {
    let mut before = [0u8; STORE];
    paint(&mut before);
    let mut by_old = before;
    let mut by_new = before;
    old::move_characters(&mut by_old, from, to, n);
    moving::move_characters(&mut by_new, from, to, n);
    let alike = seen.alike && by_old == by_new;
    let still = seen.still && before == by_new;
    let sum = weigh(seen.sum, &by_new);
    Seen { alike, still, sum }
}

fn at_distance(seen: Seen, n: usize, d: usize) -> Seen {
    if n <= STORE && d <= STORE - n {
        let far = STORE - n - d;
        let seen = trial(seen, d, 0, n);
        let seen = trial(seen, 0, d, n);
        let seen = trial(seen, far + d, far, n);
        return trial(seen, far, far + d, n);
    }
    seen
}

// By k places, and by n - k places, so that k bytes are shared.
fn at_both(seen: Seen, n: usize, k: usize) -> Seen {
    let seen = at_distance(seen, n, k);
    if k <= n {
        return at_distance(seen, n, n - k);
    }
    seen
}

fn end_to_end(seen: Seen, n: usize) -> Seen {
    if n <= STORE {
        return at_distance(seen, n, STORE - n);
    }
    seen
}

impl fmt::Display for Seen {
    fn fmt<W: fmt::Write>(&self, f: &mut fmt::Formatter<W>) -> fmt::Result {
        let alike = if self.alike {
            ": alike,"
        } else {
            ": NOT ALIKE,"
        };
        let still = if self.still { " nothing written," } else { "" };
        write!(f, "{alike}{still}{}", Spaced(self.sum))
    }
}

fn nothing_yet() -> Seen {
    Seen {
        alike: true,
        still: true,
        sum: 0,
    }
}

fn of_length(out: &mut Out, n: usize) -> fmt::Result {
    let mut seen = end_to_end(nothing_yet(), n);
    for k in DISTANCES {
        seen = at_both(seen, n, k);
    }
    writeln!(out, "length{}{seen}", Spaced(n))
}

// Places outside the store: one byte too far, then so far that place and length wrap round.
fn outside(out: &mut Out) -> fmt::Result {
    let most = usize::MAX;
    let seen = nothing_yet();
    let seen = trial(seen, STORE - 7, 0, 8);
    let seen = trial(seen, 0, STORE - 7, 8);
    let seen = trial(seen, STORE, 0, 1);
    let seen = trial(seen, 0, STORE, 1);
    let seen = trial(seen, 1, 0, STORE);
    let seen = trial(seen, 0, 1, STORE);
    let seen = trial(seen, most, 0, 1);
    let seen = trial(seen, 0, most, 1);
    let seen = trial(seen, 2, 1, most);
    let seen = trial(seen, 1, 2, most);
    let seen = trial(seen, most - 7, 0, 8);
    let seen = trial(seen, 0, most - 7, 8);
    let seen = trial(seen, most, most, most);
    writeln!(out, "outside{seen}")
}

fn moves(out: &mut Out) -> fmt::Result {
    for n in LENGTHS {
        of_length(out, n)?;
    }
    outside(out)
}

fn main() {
    let _ = moves(&mut Out);
}
