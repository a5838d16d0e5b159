// What a run carries on from a burst.
ghost use Rattle.std.specs.Prelude.{◌≡◌};
ghost use Rattle.strlib.specs.Refusal.{refused, answered};
ghost use Rattle.flat_finds.specs.Runs.{flat_burst};

use bursts::Carried;
use strlib::Refusal;

#[repr(C)]
#[derive(Clone, Copy)]
pub struct FlatBurst {
    pub refusal: u8,
    pub carried: Carried,
}

impl FlatBurst {
    // Refused with any number: a refusal's, or another.
    pub fn refused(carried: Carried, refusal: u8) -> Self
        ensures { result ≡ flat_burst carried (refused refusal) }
    {
        Self { refusal, carried }
    }
}

// On a refusal what was given goes back, so that a caller may take the answer's in either case; so it is no `From`.
pub fn burst(given: Carried, a: Result<Carried, Refusal>) -> FlatBurst
    ensures { result ≡ flat_burst given (answered a) }
{
    match a {
        Ok(carried) => FlatBurst {
            refusal: 0,
            carried,
        },
        // written out: by a call of `refused` a run's loop is compiled to a fifth more
        Err(refusal) => FlatBurst {
            refusal: u8::from(refusal),
            carried: given,
        },
    }
}
