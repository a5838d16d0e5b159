// How many characters each two listed strings begin alike with. It is found once: a row then compares its text with a
// string by numbers, and time does not grow with the square of a string's length.
ghost use Rattle.std.specs.Prelude.{◌≡◌, ◌≤◌, length};
ghost use Rattle.strlib.specs.Pointer.{texts};
ghost use Rattle.translator.specs.Common.{Alike, AlikeTo};

use strlib::StrPtr;

pub(super) type Numbers = [usize; StrPtr::LIST_MAX];

// The numbers of x.
fn put_numbers(store: &[u8], strings: &[StrPtr], x: &[u8], numbers: &mut Numbers)
    requires { length strings.now ≤ 32 }
    ensures { AlikeTo (texts store.now strings.now) numbers.new x.now }
{
    for (k, p) in strings.iter().enumerate() {
        numbers[k] = words::alike(strlib::text(store, *p), x);
    }
}

// The numbers of every string.
pub(super) fn fill_alike(store: &[u8], strings: &[StrPtr], alike: &mut [Numbers; StrPtr::LIST_MAX])
    requires { length strings.now ≤ 32 }
    ensures { Alike (texts store.now strings.now) alike.new }
{
    for (j, p) in strings.iter().enumerate() {
        put_numbers(store, strings, strlib::text(store, *p), &mut alike[j]);
    }
}
