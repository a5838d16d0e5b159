// Reading: blanks, an optional minus, one or more digits of the base, nothing more.
ghost use Rattle.std.specs.Prelude.{◌≡◌, true, ◌+◌, ◌-◌, ◌*◌, ◌≤◌, min};
ghost use Rattle.strlib.specs.Refusal.{number_found, answered};
ghost use Rattle.number.specs.Limits.{is_base};
ghost use Rattle.number.specs.Text.{unblanked, minus, unsigned, is_digit, are_digits, is_number, value, signed, number_of};
ghost use Rattle.number.specs.Number.{read_rule};
ghost use Rattle.number.specs.Inner.{unreadable, reads};

use super::limits;
use strlib::{Refusal, StrPtr};

// 2^36: out of range with either sign. A value is held here once it is more, while the digits go on.
const HELD: usize = 68719476736;

// What stands behind the blanks in front.
#[tactic(auto, using(crate::proofs::Reading::blank_laws))]
fn unblanked(text: &[u8]) -> &[u8]
    ensures { result.now ≡ unblanked text.now }
{
    let n = words::blanks_end(text, 0);
    &text[n..]
}

fn has_minus(text: &[u8]) -> bool
    ensures { result ≡ minus text.now }
{
    text.starts_with(b"-")
}

// What stands behind an optional minus.
fn unsigned(text: &[u8]) -> &[u8]
    ensures { result.now ≡ unsigned text.now }
{
    text.strip_prefix(b"-").unwrap_or(text)
}

fn is_digit(c: u8, base: usize) -> bool
    ensures { result ≡ is_digit base c }
{
    b'0' <= c && ((c - b'0') as usize) < base
}

// The value with one digit more, held at 2^36.
fn next(v: usize, base: usize, c: u8) -> usize
    requires { (v ≤ 68719476736) × (is_base base ≡ true) × (is_digit base c ≡ true) }
    ensures { result ≡ min (v * base + (c - 48)) 68719476736 }
{
    (v * base + ((c - b'0') as usize)).min(HELD)
}

fn with_sign(negative: bool, v: usize) -> i64
    requires { v ≤ 68719476736 }
    ensures { result ≡ signed negative v }
{
    if negative { -(v as i64) } else { v as i64 }
}

fn ranged(z: i64) -> Result<i64, Refusal>
    ensures { answered result ≡ reads true z }
{
    strlib::check(limits::in_range(z), Refusal::Value)?;
    Ok(z)
}

// The number of these digits, or refusal 7 or 8.
fn read_digits(negative: bool, digits: &[u8], base: usize) -> Result<i64, Refusal>
    requires { is_base base ≡ true }
    ensures { answered result ≡ reads (are_digits base digits.now) (signed negative (value base 0 digits.now)) }
{
    strlib::check(0 < digits.len(), Refusal::NoNumber)?;
    let mut v = 0;
    for c in digits {
        strlib::check(is_digit(*c, base), Refusal::NoNumber)?;
        v = next(v, base, *c);
    }
    ranged(with_sign(negative, v))
}

fn read_text(text: &[u8], base: usize) -> Result<i64, Refusal>
    requires { is_base base ≡ true }
    ensures { answered result ≡ reads (is_number base text.now) (number_of base text.now) }
{
    let rest = unblanked(text);
    read_digits(has_minus(rest), unsigned(rest), base)
}

fn check_read(store: &[u8], string: StrPtr, base: usize) -> Result<(), Refusal>
    ensures { number_found result ≡ unreadable store.now string base }
{
    strlib::check_store(store)?;
    strlib::check(limits::is_base(base), Refusal::Range)?;
    strlib::check_good(store.len(), string)?;
    strlib::check_readable(store, string)
}

// The number that a string says in a base.
pub fn read(store: &[u8], string: StrPtr, base: usize) -> Result<i64, Refusal>
    ensures { answered result ≡ read_rule store.now string base }
{
    check_read(store, string, base)?;
    read_text(strlib::text(store, string), base)
}
