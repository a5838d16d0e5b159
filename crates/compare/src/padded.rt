// The padded order of two texts of any bytes, which need not lie in one store.
ghost use Rattle.std.specs.Prelude.{◌≡◌, get_or};
ghost use Rattle.std.specs.Ordering.{ordering_index};
ghost use Rattle.compare.specs.Padded.{padded_order};

use std::cmp::Ordering;

// A text goes on with blanks.
fn byte_at(text: &[u8], i: usize) -> u8
    ensures { result ≡ get_or text.now i 32 }
{
    text.get(i).copied().unwrap_or(b' ')
}

// The order in padded style, nothing translated.
pub fn padded_order(x: &[u8], y: &[u8]) -> Ordering
    ensures { ordering_index result ≡ padded_order x.now y.now }
{
    let both = x.len().min(y.len());
    let most = x.len().max(y.len());
    // the pairs that both texts have: a walk that has no pad to think of, for speed
    let order = x[..both].cmp(&y[..both]);
    if order.is_ne() {
        return order;
    }
    // the longer one's tail beside blanks
    for i in both..most {
        let order = byte_at(x, i).cmp(&byte_at(y, i));
        if order.is_ne() {
            return order;
        }
    }
    Ordering::Equal
}
