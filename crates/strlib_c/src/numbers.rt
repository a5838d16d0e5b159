// Numbers read and written.
ghost use Rattle.std.specs.Prelude.{◌≡◌};
ghost use Rattle.number.specs.Number.{read_rule, write_rule};
ghost use Rattle.flat.specs.Strings.{flat_with, flat_string};
ghost use Rattle.flat.specs.Values.{flat_number};

use flat::{FlatNumber, FlatString};
use strlib::StrPtr;

#[unsafe(no_mangle)]
pub extern "C" fn strlib_read_number(store: &[u8], string: StrPtr, base: usize) -> FlatNumber
    ensures { result ≡ flat_number (read_rule store.now string base) }
{
    FlatNumber::from(number::read(store, string, base))
}

#[unsafe(no_mangle)]
pub extern "C" fn strlib_write_number(
    store: &mut [u8],
    destination: StrPtr,
    value: i64,
    base: usize,
) -> FlatString
    ensures { (result, store.new) ≡ flat_with flat_string (write_rule store.old destination value base) }
{
    FlatString::from(number::write(store, destination, value, base))
}
