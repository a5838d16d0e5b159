// Cutting: of strings in a store, of plain bytes, and the label shown on the desk.
ghost use Rattle.std.specs.Prelude.{◌≡◌};
ghost use Rattle.cutting.specs.Cutting.{cut_rule};
ghost use Rattle.cutting.specs.Part.{slice_cut, label_place};
ghost use Rattle.cutting.specs.declared.Cut.TheVariants.{Relative, Counted, Between, Trimmed};
ghost use Rattle.flat.specs.Strings.{flat_string, flat_part, flat_label};

use cutting::Cut;
use flat::{FlatLabel, FlatPart, FlatString};
use strlib::StrPtr;

#[unsafe(no_mangle)]
pub extern "C" fn strlib_relative(store: &[u8], string: StrPtr, offset: usize) -> FlatString
    ensures { result ≡ flat_string (cut_rule store.now string (Relative offset)) }
{
    FlatString::from(cutting::relative(store, string, offset))
}

#[unsafe(no_mangle)]
pub extern "C" fn strlib_counted(
    store: &[u8],
    string: StrPtr,
    position: usize,
    count: usize,
) -> FlatString
    ensures { result ≡ flat_string (cut_rule store.now string (Counted position count)) }
{
    FlatString::from(cutting::counted(store, string, position, count))
}

#[unsafe(no_mangle)]
pub extern "C" fn strlib_between(
    store: &[u8],
    string: StrPtr,
    pos1: usize,
    pos2: usize,
) -> FlatString
    ensures { result ≡ flat_string (cut_rule store.now string (Between pos1 pos2)) }
{
    FlatString::from(cutting::between(store, string, pos1, pos2))
}

#[unsafe(no_mangle)]
pub extern "C" fn strlib_trim(store: &[u8], string: StrPtr) -> FlatString
    ensures { result ≡ flat_string (cut_rule store.now string Trimmed) }
{
    FlatString::from(cutting::trim(store, string))
}

#[unsafe(no_mangle)]
pub extern "C" fn strlib_relative_part(bytes: &[u8], offset: usize) -> FlatPart
    ensures { result ≡ flat_part (slice_cut bytes.now (Relative offset)) }
{
    FlatPart::from(cutting::place_of(bytes, Cut::Relative(offset)))
}

#[unsafe(no_mangle)]
pub extern "C" fn strlib_counted_part(bytes: &[u8], position: usize, count: usize) -> FlatPart
    ensures { result ≡ flat_part (slice_cut bytes.now (Counted position count)) }
{
    FlatPart::from(cutting::place_of(bytes, Cut::Counted(position, count)))
}

#[unsafe(no_mangle)]
pub extern "C" fn strlib_between_part(bytes: &[u8], pos1: usize, pos2: usize) -> FlatPart
    ensures { result ≡ flat_part (slice_cut bytes.now (Between pos1 pos2)) }
{
    FlatPart::from(cutting::place_of(bytes, Cut::Between(pos1, pos2)))
}

#[unsafe(no_mangle)]
pub extern "C" fn strlib_trimmed_part(bytes: &[u8]) -> FlatPart
    ensures { result ≡ flat_part (slice_cut bytes.now Trimmed) }
{
    FlatPart::from(cutting::place_of(bytes, Cut::Trimmed))
}

#[unsafe(no_mangle)]
pub extern "C" fn strlib_desk_label(production: &[u8], house: &[u8]) -> FlatLabel
    ensures { result ≡ flat_label (label_place production.now house.now) }
{
    FlatLabel::from(cutting::label_place(production, house))
}
