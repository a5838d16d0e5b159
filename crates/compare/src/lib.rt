// Comparing two strings of one store, and the order of two texts wherever they lie.
#![tactic(auto)]

mod padded;
mod pairs;
mod refusal;

ghost use Rattle.std.specs.Prelude.{◌≡◌, true, ◌<◌, pos, ◌+ℤ◌};
ghost use Rattle.std.specs.Ordering.{ordering_index};
ghost use Rattle.strlib.specs.Pointer.{characters};
ghost use Rattle.compare.specs.Order.{order_z};
ghost use Rattle.compare.specs.Compare.{holds, translates, unequal_from, decision, decision_of, compare_rule, compared_of};
ghost use Rattle.compare.specs.Inner.{Paired, Ended, tail_decision};

pub use padded::padded_order;
use std::cmp::Ordering;
use strlib::{Refusal, StrPtr};

// The answer: whether the code's relation holds, the order of the two lengths, and the split.
#[derive(Clone, Copy)]
pub struct Comparison {
    pub yes: bool,
    pub sign: Ordering,
    pub split: usize,
}

// What decides, whatever the code: the order of the two texts, and the split.
#[derive(Clone, Copy)]
struct Decision {
    pub order: Ordering,
    pub split: usize,
}

// For each code, whether it holds of less, of equal and of greater. 01 fixes this form.
const MARKS: [[bool; 3]; 6] = [
    [false, true, false],
    [true, false, true],
    [false, true, true],
    [true, true, false],
    [false, false, true],
    [true, false, false],
];

fn mark(code: usize, order: Ordering) -> bool
    requires { code < 6 }
    ensures { result ≡ holds code (ordering_index order) }
{
    match order {
        Ordering::Less => MARKS[code][0],
        Ordering::Equal => MARKS[code][1],
        Ordering::Greater => MARKS[code][2],
    }
}

// The order of x and y + t as whole numbers.
fn order(x: u8, y: u8, t: i64) -> Ordering
    requires { translates t ≡ true }
    ensures { ordering_index result ≡ order_z (pos x) (pos y +ℤ t) }
{
    (x as i64).cmp(&((y as i64) + t))
}

// Of the first n pairs, which both texts have, the index of the first unequal one, or n. Where the first pair tells, no
// block is looked at.
fn first_unequal(x: &[u8], y: &[u8], t: i64, n: usize) -> usize
    requires { (translates t ≡ true) × Paired x.now y.now n }
    ensures { result ≡ unequal_from x.now y.now t 0 n }
{
    if n == 0 {
        return 0;
    }
    if order(x[0], y[0], t).is_ne() {
        return 0;
    }
    pairs::by_blocks(x, y, t, n)
}

// Past the shorter text's end, in padded style: the longer one's tail beside blanks, and nothing translated.
fn decide_tail(x: &[u8], y: &[u8], n: usize) -> Decision
    requires { Ended x.now y.now n }
    ensures { decision_of result ≡ tail_decision x.now y.now }
{
    let d = pairs::tail_end(x, y, n);
    if d < x.len() {
        return Decision {
            order: order(x[d], b' ', 0),
            split: d + 1,
        };
    }
    if d < y.len() {
        return Decision {
            order: order(b' ', y[d], 0),
            split: d + 1,
        };
    }
    Decision {
        order: Ordering::Equal,
        split: 0,
    }
}

// The pairs that both texts have, translated, up to the first unequal one; else the tail, in padded style, or the
// lengths, in exact style. The style stays the number that was checked: an enum would only be tested once more.
fn decide(x: &[u8], y: &[u8], style: usize, t: i64) -> Decision
    requires { (translates t ≡ true) × (characters x.now ≡ true) × (characters y.now ≡ true) }
    ensures { decision_of result ≡ decision x.now y.now style t }
{
    let n = x.len().min(y.len());
    let d = first_unequal(x, y, t, n);
    if d < n {
        return Decision {
            order: order(x[d], y[d], t),
            split: d + 1,
        };
    }
    if style == 0 {
        return decide_tail(x, y, n);
    }
    if style == 1 && x.len() != y.len() {
        return Decision {
            order: x.len().cmp(&y.len()),
            split: n + 1,
        };
    }
    Decision {
        order: Ordering::Equal,
        split: 0,
    }
}

// Compares string 1 with string 2, translated for the extent of the shorter one, in a style, and says whether the code's
// relation holds. Code and style are numbers, as 01 gives them: any is taken, and 3 refuses the others.
pub fn compare(
    store: &[u8],
    string1: StrPtr,
    string2: StrPtr,
    code: usize,
    style: usize,
    translation: i64,
) -> Result<Comparison, Refusal>
    ensures { compared_of result ≡ compare_rule store.now string1 string2 code style translation }
{
    refusal::check_compare(store, string1, string2, code, style, translation)?;
    let x = strlib::text(store, string1);
    let y = strlib::text(store, string2);
    let d = decide(x, y, style, translation);
    Ok(Comparison {
        yes: mark(code, d.order),
        sign: x.len().cmp(&y.len()),
        split: d.split,
    })
}
