// Translating a list of strings into a search table: 01, "The search table". The rows of the states are filled by the
// lengths of their texts, each beginning as a copy of a shorter text's row.
#![tactic(auto)]

mod alike;
mod levels;

ghost use Rattle.std.specs.Prelude.{◌≡◌, true, [], ◌+◌, ◌*◌, ◌≤◌, ◌<◌, length, get_or};
ghost use Rattle.strlib.specs.Pointer.{texts, all, characters};
ghost use Rattle.search.specs.Search.{closed, length_of};
ghost use Rattle.states.specs.State.{total};
ghost use Rattle.states.specs.Fill.{word_or_stop, Copied, Flat, Defaulted, Put, Children, NotePut, Rowed};
ghost use Rattle.translator.specs.Inner.{Ready, Open, Next};
ghost use Rattle.translator.specs.Common.{Tells, TellsAll};

use alike::Numbers;
pub use levels::translate;
use strlib::StrPtr;
use table::{LENGTH_WORD, STATE_WORDS, STRING_WORD};

// Store, strings and table go beside one another: the contracts speak of the texts, the words and the numbers of
// likeness apart, and a struct of them would be taken apart in each.

// ---- the strings

// The number of the first listed string that u begins with, 0 for none. `alike` has the numbers of the string that u is
// cut from.
fn closed_by(store: &[u8], strings: &[StrPtr], u: &[u8], alike: &Numbers) -> usize
    requires { (length strings.now ≤ 32) × TellsAll alike.now u.now (texts store.now strings.now) }
    ensures { result ≡ closed (texts store.now strings.now) u.now }
{
    for (i, p) in strings.iter().enumerate() {
        let n = strlib::text(store, *p).len();
        if n <= u.len() && n <= alike[i] {
            return i + 1;
        }
    }
    0
}

// The length of string number j, 0 for none.
fn length_of(store: &[u8], strings: &[StrPtr], j: usize) -> usize
    requires { j ≤ length strings.now }
    ensures { result ≡ length_of (texts store.now strings.now) j }
{
    if j == 0 {
        return 0;
    }
    strlib::text(store, strings[j - 1]).len()
}

// ---- the words of a row

fn flat_row(table: &mut [u16], q: usize, v: u16)
    requires { 1 + 130 * q + 130 ≤ length table.old }
    ensures { Flat table.old table.new q v }
{
    let base = 1 + STATE_WORDS * q;
    table[base..base + STRING_WORD].fill(v);
    table[base + STRING_WORD..base + STATE_WORDS].fill(0);
}

fn copy_row(table: &mut [u16], from: usize, q: usize)
    requires { (1 + 130 * q + 130 ≤ length table.old) × (1 + 130 * from + 130 ≤ length table.old) }
    ensures { Copied table.old table.new from q 130 }
{
    let row = 1 + STATE_WORDS * from;
    table.copy_within(row..row + STATE_WORDS, 1 + STATE_WORDS * q);
}

// The row of state `from` for state q; state 0 has none.
fn default_row(table: &mut [u16], q: usize, from: usize)
    requires { (1 + 130 * q + 130 ≤ length table.old) × (1 + 130 * from + 130 ≤ length table.old) }
    ensures { Defaulted table.old table.new q from }
{
    if from == 0 {
        flat_row(table, q, 0);
    } else {
        copy_row(table, from, q);
    }
}

// Where x goes on past u, its state v for the next character. `alike` is how far x and the string that u is cut from
// are alike.
fn put_child(table: &mut [u16], base: usize, x: &[u8], u: &[u8], alike: usize, v: u16)
    requires { (base + 128 ≤ length table.old) × (characters x.now ≡ true) × Tells alike u.now x.now }
    ensures { Put table.old table.new base v u.now x.now }
{
    let l = u.len();
    if x.len() <= l {
        return;
    }
    if l <= alike {
        table[base + x[l] as usize] = v;
    }
}

// The strings that go on past u, from the last to the first, so that the first one stays.
fn put_children(
    store: &[u8],
    strings: &[StrPtr],
    u: &[u8],
    alike: &Numbers,
    base: usize,
    table: &mut [u16],
)
    requires { (length strings.now ≤ 32) × (length store.now ≤ 65536) × (all characters (texts store.now strings.now) ≡ true) × (total (texts store.now strings.now) ≤ 240) × (length u.now ≤ 240) × (base + 128 ≤ length table.old) × TellsAll alike.now u.now (texts store.now strings.now) }
    ensures { Children table.old table.new base u.now (texts store.now strings.now) 0 }
{
    let mut at = preparing::total_of(store, strings);
    for k in (0..strings.len()).rev() {
        let x = strlib::text(store, strings[k]);
        at -= x.len();
        put_child(table, base, x, u, alike[k], (at + u.len() + 2) as u16);
    }
}

// The note of state q, whose text is l characters long, where this is string `closing`, of n characters.
fn put_note(table: &mut [u16], q: usize, closing: usize, n: usize, l: usize)
    requires { (1 + 130 * q + 130 ≤ length table.old) × (closing ≤ 32) × (l ≤ 240) }
    ensures { NotePut table.old table.new q closing n l }
{
    if closing == 0 {
        return;
    }
    if n == l {
        table[1 + STATE_WORDS * q + STRING_WORD] = closing as u16;
        table[1 + STATE_WORDS * q + LENGTH_WORD] = l as u16;
    }
}

// ---- a row

// The row of u, which has its default.
fn finish_row(
    store: &[u8],
    strings: &[StrPtr],
    u: &[u8],
    alike: &Numbers,
    closing: usize,
    q: usize,
    table: &mut [u16],
)
    requires { Ready store.now (texts store.now strings.now) table.old × Open (texts store.now strings.now) table.old u.now q closing × TellsAll alike.now u.now (texts store.now strings.now) }
    ensures { Rowed (texts store.now strings.now) table.old table.new q u.now }
{
    let m = preparing::limit_of(closing, strings.len());
    let n = length_of(store, strings, closing);
    put_children(store, &strings[..m], u, alike, 1 + STATE_WORDS * q, table);
    put_note(table, q, closing, n, u.len());
}

// The row of the start, whose text is empty: any numbers tell what begins with it.
fn root_row(store: &[u8], strings: &[StrPtr], alike: &Numbers, table: &mut [u16])
    requires { Ready store.now (texts store.now strings.now) table.old }
    ensures { Rowed (texts store.now strings.now) table.old table.new 1 [] }
{
    let closing = closed_by(store, strings, &[], alike);
    flat_row(table, 1, preparing::root_to(strings.len(), closing));
    finish_row(store, strings, &[], alike, closing, 1, table);
}

// The row of u, whose tail's state is `fail`.
fn fill_row(
    store: &[u8],
    strings: &[StrPtr],
    u: &[u8],
    alike: &Numbers,
    q: usize,
    fail: usize,
    table: &mut [u16],
)
    requires { Ready store.now (texts store.now strings.now) table.old × Next (texts store.now strings.now) table.old u.now q fail × TellsAll alike.now u.now (texts store.now strings.now) }
    ensures { Rowed (texts store.now strings.now) table.old table.new q u.now }
{
    let closing = closed_by(store, strings, u, alike);
    let from = preparing::if_open(closing, fail);
    default_row(table, q, from);
    finish_row(store, strings, u, alike, closing, q, table);
}

fn row_word(table: &[u16], q: usize, c: usize) -> usize
    requires { 1 + 130 * q + c < length table.now }
    ensures { result ≡ word_or_stop table.now q c }
{
    if q == 0 {
        return 0;
    }
    table::wide(table[1 + STATE_WORDS * q + c])
}

// The state of the tail of l + 1 characters of x, from that of l.
fn next_fail(table: &[u16], x: &[u8], l: usize, fail: usize) -> usize
    requires { (1 + 130 * fail + 128 ≤ length table.now) × (characters x.now ≡ true) }
    ensures { l < length x.now → result ≡ word_or_stop table.now fail (get_or x.now l 0) }
{
    if x.len() <= l {
        return 0;
    }
    row_word(table, fail, x[l] as usize)
}
