// The calls of include/strlib.h, each the call of the library that its name says, with its answer made flat. Arguments
// come in the header's order.
#![tactic(auto)]

mod comparing;
mod copies;
mod cuts;
mod desks;
mod edits;
mod numbers;
mod searches;
mod sets;
mod tables;

ghost use Rattle.std.specs.Prelude.{◌≡◌};
ghost use Rattle.strlib.specs.Pointer.{good_in};

use strlib::StrPtr;

// Whether a pointer is good for a store of so many bytes.
#[unsafe(no_mangle)]
pub extern "C" fn strlib_is_good(n: usize, string: StrPtr) -> bool
    ensures { result ≡ good_in n string }
{
    string.is_good(n)
}
