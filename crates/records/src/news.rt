// A new record: its checks, and its bytes.
ghost use Rattle.std.specs.Prelude.{◌≡◌};
ghost use Rattle.strlib.specs.Refusal.{number_found};
ghost use Rattle.moving.specs.Moving.{pasted};
ghost use Rattle.records.specs.Record.{new_refusal, fitted_bytes};

use super::{kinds, lists};
use strlib::{Refusal, StrPtr};

// Bytes of a record.
const SIZE: usize = kinds::HEAD + kinds::NAME;

// The checks of a record behind a good list with this room behind it.
pub fn check_new(
    list: &[u8],
    room: usize,
    kind: usize,
    number: usize,
    name: &[u8],
) -> Result<(), Refusal>
    ensures { number_found result ≡ new_refusal list.now room kind number name.now }
{
    kinds::check_key(kind, number)?;
    strlib::check(name.len() <= kinds::width_of(kind), Refusal::Position)?;
    strlib::check(kinds::is_name(name), Refusal::Character)?;
    strlib::check(
        lists::find_record(list, kind, number) == 0,
        Refusal::Repeated,
    )?;
    strlib::check(kinds::size_of(kind) <= room, Refusal::Room)
}

// Writes a record.
pub fn write_record(buffer: &mut [u8], at: usize, kind: usize, number: usize, name: &[u8])
    ensures { buffer.new ≡ pasted buffer.old at (fitted_bytes kind number name.now) }
{
    let kind = kind % 256;
    let mut record = [b' '; SIZE];
    record[0] = kind as u8;
    // the low 16 bits of any number: `to_be_bytes` would need the same remainder first
    record[1] = (number / 256 % 256) as u8;
    record[2] = (number % 256) as u8;
    let fitting = strlib::text(name, StrPtr::full(0, kinds::width_of(kind)));
    moving::write_bytes(&mut record, kinds::HEAD, fitting);
    moving::write_bytes(buffer, at, &record);
}
