// Read-only cuts: parts of the caller's slice itself, of any bytes and any length.
ghost use Rattle.std.specs.Prelude.{◌≡◌, ◌+◌, ◌≤◌, length};
ghost use Rattle.strlib.specs.Pointer.{pointer};
ghost use Rattle.cutting.specs.Part.{IsPart, slice_cut, shown, label_place};
ghost use Rattle.cutting.specs.declared.Cut.TheVariants.{Relative, Counted, Between, Trimmed};

use super::{Cut, bounds};
use strlib::StrPtr;

#[tactic(auto, unfolding(strlib::specs::Pointer::text_of))]
fn part(bytes: &[u8], p: StrPtr) -> &[u8]
    requires { p.start + p.length ≤ length bytes.now }
    ensures { IsPart result bytes.entry p }
{
    let a = p.start;
    let e = a + p.length;
    &bytes[a..e]
}

// Where a cut lies in a slice, which is cut as the string that it is whole.
#[tactic(auto, using(crate::proofs::Slicing::slice_laws))]
pub fn place_of(bytes: &[u8], cut: Cut) -> StrPtr
    ensures { result ≡ slice_cut bytes.now cut }
{
    let whole = StrPtr::full(0, bytes.len());
    if bounds::in_bounds(whole, cut) {
        return super::cut_of(bytes, whole, cut);
    }
    StrPtr::full(0, 0)
}

#[tactic(auto, using(crate::proofs::Slicing::slice_laws))]
fn cut_slice(bytes: &[u8], cut: Cut) -> &[u8]
    ensures { IsPart result bytes.entry (slice_cut bytes.now cut) }
{
    part(bytes, place_of(bytes, cut))
}

pub fn relative_part(bytes: &[u8], offset: usize) -> &[u8]
    ensures { IsPart result bytes.entry (slice_cut bytes.now (Relative offset)) }
{
    cut_slice(bytes, Cut::Relative(offset))
}

pub fn counted_part(bytes: &[u8], position: usize, count: usize) -> &[u8]
    ensures { IsPart result bytes.entry (slice_cut bytes.now (Counted position count)) }
{
    cut_slice(bytes, Cut::Counted(position, count))
}

pub fn between_part(bytes: &[u8], pos1: usize, pos2: usize) -> &[u8]
    ensures { IsPart result bytes.entry (slice_cut bytes.now (Between pos1 pos2)) }
{
    cut_slice(bytes, Cut::Between(pos1, pos2))
}

pub fn trimmed_part(bytes: &[u8]) -> &[u8]
    ensures { IsPart result bytes.entry (slice_cut bytes.now Trimmed) }
{
    cut_slice(bytes, Cut::Trimmed)
}

// Where the label shown on the desk lies: in the production name, or in the house name.
#[derive(Clone, Copy)]
pub enum DeskLabel {
    Production(StrPtr),
    House(StrPtr),
}

#[tactic(auto, using(crate::proofs::Slicing::label_laws))]
pub fn label_place(production: &[u8], house: &[u8]) -> DeskLabel
    ensures { result ≡ label_place production.now house.now }
{
    let place = place_of(production, Cut::Trimmed);
    if place.length == 0 {
        return DeskLabel::House(place_of(house, Cut::Trimmed));
    }
    DeskLabel::Production(place)
}

// The label shown on the desk: the trimmed production name, or where that is blank or empty the trimmed house name.
pub fn desk_label<'a>(production: &'a [u8], house: &'a [u8]) -> &'a [u8]
    ensures { IsPart result (shown production.entry house.entry) (slice_cut (shown production.entry house.entry).now Trimmed) }
{
    match label_place(production, house) {
        DeskLabel::Production(place) => part(production, place),
        DeskLabel::House(place) => part(house, place),
    }
}
