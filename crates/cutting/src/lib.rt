// Cutting, on string pointers and on plain slices.
#![tactic(auto)]

mod bounds;
mod parts;

ghost use Rattle.std.specs.Prelude.{◌≡◌, ◌<◌, cond};
ghost use Rattle.strlib.specs.Pointer.{part_of};
ghost use Rattle.strlib.specs.Refusal.{answered, number_found};
ghost use Rattle.cutting.specs.Cutting.{second, cut_reads, cut_of, cut_refusal, cut_rule};
ghost use Rattle.cutting.specs.Inner.{Cuttable, Inside};
ghost use Rattle.cutting.specs.declared.Cut.TheVariants.{Relative, Counted, Between, Trimmed};

pub use parts::{
    DeskLabel, between_part, counted_part, desk_label, label_place, place_of, relative_part,
    trimmed_part,
};
use strlib::{Refusal, StrPtr};

// The four cuts of document 01, with their numbers: an offset; a position and a count; two positions; none.
#[derive(Clone, Copy)]
pub enum Cut {
    Relative(usize),
    Counted(usize, usize),
    Between(usize, usize),
    Trimmed,
}

// The four calls are 01's, by name, and so are their read-only forms; one function makes each kind (`cut_string`,
// `cut_slice`).

// What is behind the first `offset` characters.
pub fn relative(store: &[u8], string: StrPtr, offset: usize) -> Result<StrPtr, Refusal>
    ensures { answered result ≡ cut_rule store.now string (Relative offset) }
{
    cut_string(store, string, Cut::Relative(offset))
}

// `count` characters from a position on, which may reach past the length up to the maximum.
pub fn counted(
    store: &[u8],
    string: StrPtr,
    position: usize,
    count: usize,
) -> Result<StrPtr, Refusal>
    ensures { answered result ≡ cut_rule store.now string (Counted position count) }
{
    cut_string(store, string, Cut::Counted(position, count))
}

// What lies between two positions; pos2 = 0 is the position behind the last character.
pub fn between(store: &[u8], string: StrPtr, pos1: usize, pos2: usize) -> Result<StrPtr, Refusal>
    ensures { answered result ≡ cut_rule store.now string (Between pos1 pos2) }
{
    cut_string(store, string, Cut::Between(pos1, pos2))
}

// The string without its trailing blanks.
pub fn trim(store: &[u8], string: StrPtr) -> Result<StrPtr, Refusal>
    ensures { answered result ≡ cut_rule store.now string Trimmed }
{
    cut_string(store, string, Cut::Trimmed)
}

// A part of a string, from `skip` behind its start.
#[tactic(auto, unfolding(strlib::specs::Pointer::part_of))]
fn part_of(string: StrPtr, skip: usize, n: usize, maximum: usize) -> StrPtr
    requires { Inside string skip }
    ensures { result ≡ part_of string skip n maximum }
{
    string.part(string.start + skip, n, maximum)
}

#[tactic(auto, unfolding(crate::specs::Cutting::second))]
fn second_position(n: usize, pos2: usize) -> usize
    requires { n < 9223372036854775808 }
    ensures { result ≡ second n pos2 }
{
    if pos2 == 0 { n + 1 } else { pos2 }
}

// The string that is cut out.
#[tactic(auto, using(crate::proofs::Making::cut_laws), unfolding(crate::specs::Cutting::cut_of))]
fn cut_of(bytes: &[u8], string: StrPtr, cut: Cut) -> StrPtr
    requires { Cuttable string cut }
    ensures { result ≡ cut_of bytes.now string cut }
{
    match cut {
        Cut::Relative(offset) => part_of(
            string,
            offset,
            string.length - offset,
            string.maximum - offset,
        ),
        Cut::Counted(position, count) => {
            part_of(string, position - 1, count, string.maximum + 1 - position)
        }
        Cut::Between(pos1, pos2) => {
            let end = second_position(string.length, pos2);
            part_of(string, pos1 - 1, end - pos1, string.length + 1 - pos1)
        }
        Cut::Trimmed => string.sized(bounds::trimmed_length(strlib::text(bytes, string))),
    }
}

// Refusal 2, which only trimming can give.
#[tactic(auto, unfolding(crate::specs::Cutting::cut_reads))]
fn check_reads(store: &[u8], string: StrPtr, cut: Cut) -> Result<(), Refusal>
    ensures { number_found result ≡ cond (cut_reads store.now string cut) 0 2 }
{
    match cut {
        Cut::Trimmed => strlib::check_readable(store, string),
        Cut::Relative(_) | Cut::Counted(_, _) | Cut::Between(_, _) => Ok(()),
    }
}

#[tactic(auto, using(strlib::proofs::Answering::answer_laws), unfolding(crate::specs::Cutting::cut_refusal))]
fn check_cut(store: &[u8], string: StrPtr, cut: Cut) -> Result<(), Refusal>
    ensures { number_found result ≡ cut_refusal store.now string cut }
{
    strlib::check_store(store)?;
    strlib::check_good(store.len(), string)?;
    check_reads(store, string, cut)?;
    strlib::check(bounds::in_bounds(string, cut), Refusal::Position)
}

fn cut_string(store: &[u8], string: StrPtr, cut: Cut) -> Result<StrPtr, Refusal>
    ensures { answered result ≡ cut_rule store.now string cut }
{
    check_cut(store, string, cut)?;
    Ok(cut_of(store, string, cut))
}
