// Kinds and their limits, and what a kind, a number and a name have to be.
ghost use Rattle.std.specs.Prelude.{◌≡◌};
ghost use Rattle.strlib.specs.Refusal.{number_found};
ghost use Rattle.records.specs.Record.{width_of, record_size, limit_of, is_number_of, is_name, key_refusal};

use strlib::Refusal;

// The largest matrix.
pub const MICROPHONES_MAX: usize = 64;

pub const LOUDSPEAKERS_MAX: usize = 128;

// Bytes before a name.
pub const HEAD: usize = 3;

// Characters of a name.
pub const NAME: usize = 16;

// The greatest number of a kind: 1, microphones, or 2, loudspeakers; 0 for what is no kind. A kind stays a number: a
// list's byte and a caller may give any, and 11 refuses the others.
pub fn limit_of(kind: usize) -> usize
    ensures { result ≡ limit_of kind }
{
    match kind {
        1 => MICROPHONES_MAX,
        2 => LOUDSPEAKERS_MAX,
        _ => 0,
    }
}

// Characters of a name, and bytes of a record.
#[tactic(auto, using(crate::proofs::Limits::limit_laws))]
pub fn width_of(kind: usize) -> usize
    ensures { result ≡ width_of kind }
{
    NAME
}

#[tactic(auto, using(crate::proofs::Limits::limit_laws))]
pub fn size_of(kind: usize) -> usize
    ensures { result ≡ record_size kind }
{
    HEAD + width_of(kind)
}

#[tactic(auto, using(crate::proofs::Limits::limit_laws))]
pub fn is_number_of(kind: usize, number: usize) -> bool
    ensures { result ≡ is_number_of kind number }
{
    strlib::both(1 <= number, number <= limit_of(kind))
}

// Whether each byte is one of a name, 32 to 126.
pub fn is_name(bytes: &[u8]) -> bool
    ensures { result ≡ is_name bytes.now }
{
    bytes.iter().all(|x| 32 <= *x && *x <= 126)
}

// The checks of a kind and a number.
pub fn check_key(kind: usize, number: usize) -> Result<(), Refusal>
    ensures { number_found result ≡ key_refusal kind number }
{
    strlib::check(1 <= limit_of(kind), Refusal::Form)?;
    strlib::check(is_number_of(kind, number), Refusal::Matrix)
}
