// Pairs that both texts have, many at a time, and the blanks of the longer one's tail. Two texts and a translation go
// beside one another: a struct would be made and taken apart once for each of four functions.
ghost use Rattle.std.specs.Prelude.{◌≡◌, true, [], ◌+◌, ◌-◌, ◌≤◌, ◌<◌, max, eqb, pos, ◌+ℤ◌, length};
ghost use Rattle.std.proofs.Math.IntN.{sub_ℕ};
ghost use Rattle.strlib.specs.Pointer.{characters};
ghost use Rattle.compare.specs.Order.{order_z};
ghost use Rattle.compare.specs.Compare.{translates, unequal_from};
ghost use Rattle.compare.specs.Inner.{Paired, Ended};

// A translation as a byte, 128 more.
fn raise(t: i64) -> u8
    requires { translates t ≡ true }
    ensures { sub_ℕ result 128 ≡ t }
{
    (t + 128) as u8
}

// Whether x is y with the translation added. Both are characters, so that no sum and no difference leaves a byte.
fn is_equal(x: u8, y: u8, raised: u8) -> bool
    requires { (x ≤ 127) × (y ≤ 127) }
    ensures { result ≡ eqb (order_z (pos x) (pos y +ℤ sub_ℕ raised 128)) 1 }
{
    x + 128 - y == raised
}

// Whether all pairs of a block are equal. A loop that never leaves early is compiled to take many pairs at a time.
fn are_equal(x: &[u8], y: &[u8], raised: u8) -> bool
    requires { Paired x.now y.now (length x.now) }
    ensures { result ≡ eqb (unequal_from x.now y.now (sub_ℕ raised 128) 0 (length x.now)) (length x.now) }
{
    let mut equal = true;
    for i in 0..x.len() {
        equal = strlib::both(equal, is_equal(x[i], y[i], raised));
    }
    equal
}

// From the pair `from` on, blocks of this width, while so many of the n pairs are left, up to the first block that has
// an unequal pair. Chunks of both texts, zipped and counted, would be no plainer: the count is multiplied out again.
fn pass_blocks(x: &[u8], y: &[u8], raised: u8, n: usize, from: usize, width: usize) -> usize
    requires { Paired x.now y.now n × (from ≤ unequal_from x.now y.now (sub_ℕ raised 128) 0 n) × (0 < width) }
    ensures { (result ≤ unequal_from x.now y.now (sub_ℕ raised 128) 0 n) × (unequal_from x.now y.now (sub_ℕ raised 128) 0 n < result + width) }
{
    let mut i = from;
    while width <= n - i {
        let e = i + width;
        if !are_equal(&x[i..e], &y[i..e], raised) {
            return i;
        }
        i = e;
    }
    i
}

// Of the first n pairs the index of the first unequal one, or n: by blocks, then by ever shorter ones.
pub(super) fn by_blocks(x: &[u8], y: &[u8], t: i64, n: usize) -> usize
    requires { (translates t ≡ true) × Paired x.now y.now n }
    ensures { result ≡ unequal_from x.now y.now t 0 n }
{
    let raised = raise(t);
    let i = pass_blocks(x, y, raised, n, 0, 64);
    let i = pass_blocks(x, y, raised, n, i, 16);
    let i = pass_blocks(x, y, raised, n, i, 4);
    pass_blocks(x, y, raised, n, i, 1)
}

// From index i on, the first character that is no blank, or the text's end. The text is paired with itself, one place
// on: behind a blank all are blanks up to the first that is unequal to the one before it.
fn blanks_end(z: &[u8], i: usize) -> usize
    requires { (characters z.now ≡ true) × (i ≤ length z.now) }
    ensures { result ≡ unequal_from z.now [] (pos 0) i (length z.now - i) }
{
    let n = z.len();
    if n <= i {
        return i;
    }
    if z[i] != b' ' {
        return i;
    }
    let next = i + 1;
    next + by_blocks(&z[next..], &z[i..], 0, n - next)
}

// From the shorter text's end on, the longer one's first character that is no blank, or its end.
pub(super) fn tail_end(x: &[u8], y: &[u8], n: usize) -> usize
    requires { Ended x.now y.now n }
    ensures { result ≡ unequal_from x.now y.now (pos 0) n (max (length x.now) (length y.now) - n) }
{
    if n < x.len() {
        return blanks_end(x, n);
    }
    blanks_end(y, n)
}
