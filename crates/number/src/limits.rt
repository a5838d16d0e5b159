// The base and the range of a number.
ghost use Rattle.std.specs.Prelude.{◌≡◌};
ghost use Rattle.number.specs.Limits.{is_base, in_range};

use strlib::StrPtr;

#[tactic(auto, unfolding(crate::specs::Limits::is_base))]
pub fn is_base(base: usize) -> bool
    ensures { result ≡ is_base base }
{
    strlib::both(StrPtr::BASE_MIN <= base, base <= StrPtr::BASE_MAX)
}

pub fn in_range(value: i64) -> bool
    ensures { result ≡ in_range value }
{
    strlib::both(StrPtr::NUMBER_MIN <= value, value <= StrPtr::NUMBER_MAX)
}
