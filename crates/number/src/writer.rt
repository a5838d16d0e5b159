// Writing: a minus if negative, then the fewest digits, from the destination's start on.
ghost use Rattle.std.specs.Prelude.{◌≡◌, true, ◌+◌, ◌<◌, nat_abs, length};
ghost use Rattle.strlib.specs.Refusal.{number_found, answered};
ghost use Rattle.strlib.specs.Store.{put};
ghost use Rattle.number.specs.Limits.{is_base, in_range};
ghost use Rattle.number.specs.Written.{digits, written};
ghost use Rattle.number.specs.Number.{write_rule};
ghost use Rattle.number.specs.Inner.{unwritable, Countable, Room, TextRoom};

use super::limits;
use strlib::{Refusal, StrPtr};

fn magnitude(value: i64) -> usize
    requires { in_range value ≡ true }
    ensures { result ≡ nat_abs value }
{
    value.unsigned_abs() as usize
}

// How many digits n has. The loop counts quotients, not places: an iterator over them would be no plainer.
fn count_digits(n: usize, base: usize) -> usize
    requires { Countable base n }
    ensures { result ≡ length (digits base n) }
{
    let mut m = n;
    let mut count: usize = 1;
    while base <= m {
        m = m / base;
        count += 1;
    }
    count
}

// How many characters a number takes.
fn text_length(value: i64, base: usize) -> usize
    requires { (is_base base ≡ true) × (in_range value ≡ true) }
    ensures { result ≡ length (written base value) }
{
    let count = count_digits(magnitude(value), base);
    if value < 0 { count + 1 } else { count }
}

fn digit(d: usize) -> u8
    requires { d < 10 }
    ensures { result ≡ 48 + d }
{
    b'0' + (d as u8)
}

// Puts the digits of n, `count` of them, from index `at` on: the last one first.
fn put_digits(store: &mut [u8], at: usize, n: usize, base: usize, count: usize)
    requires { Room base n count at (length store.old) }
    ensures { store.new ≡ put store.old at (digits base n) }
{
    let mut m = n;
    for j in (0..count).rev() {
        store[at + j] = digit(m % base);
        m /= base;
    }
}

// Puts the text of a number, `count` characters, from index `at` on.
fn put_number(store: &mut [u8], at: usize, value: i64, base: usize, count: usize)
    requires { TextRoom base value count at (length store.old) }
    ensures { store.new ≡ put store.old at (written base value) }
{
    let n = magnitude(value);
    if value < 0 {
        store[at] = b'-';
        put_digits(store, at + 1, n, base, count - 1);
    } else {
        put_digits(store, at, n, base, count);
    }
}

fn check_write(store: &[u8], destination: StrPtr, value: i64, base: usize) -> Result<(), Refusal>
    ensures { number_found result ≡ unwritable store.now destination value base }
{
    strlib::check_store(store)?;
    strlib::check(limits::is_base(base), Refusal::Range)?;
    strlib::check_good(store.len(), destination)?;
    strlib::check(limits::in_range(value), Refusal::Value)
}

// Writes a number in a base into a string, whose new length is in the returned pointer.
pub fn write(
    store: &mut [u8],
    destination: StrPtr,
    value: i64,
    base: usize,
) -> Result<StrPtr, Refusal>
    ensures { (answered result, store.new) ≡ write_rule store.old destination value base }
{
    check_write(store, destination, value, base)?;
    let count = text_length(value, base);
    strlib::check(count <= destination.maximum, Refusal::Room)?;
    put_number(store, destination.start, value, base, count);
    Ok(destination.sized(count))
}
