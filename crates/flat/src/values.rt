// Comparisons, numbers and cues; and the number alone, where a call answers nothing else.
ghost use Rattle.std.specs.Prelude.{◌≡◌};
ghost use Rattle.strlib.specs.Refusal.{refused, gives, answered};
ghost use Rattle.compare.specs.Compare.{compared_of};
ghost use Rattle.records.specs.Told.{refused_at, told_by};
ghost use Rattle.desk.specs.Cue.{cue_answered, word_of};
ghost use Rattle.flat.specs.Values.{flat_comparison, flat_number, flat_cue, flat_size, flat_done};

use compare::Comparison;
use desk::{Cue, CueFault};
use records::Fault;
use strlib::Refusal;

#[repr(C)]
#[derive(Clone, Copy)]
pub struct FlatComparison {
    pub refusal: u8,
    pub yes: bool,
    pub sign: i8,
    pub split: usize,
}

#[repr(C)]
#[derive(Clone, Copy)]
pub struct FlatNumber {
    pub refusal: u8,
    pub value: i64,
}

#[repr(C)]
#[derive(Clone, Copy)]
pub struct FlatCue {
    pub refusal: u8,
    pub word: u8,
    pub microphone: usize,
    pub loudspeaker: usize,
    pub gain: i64,
}

#[repr(C)]
#[derive(Clone, Copy)]
pub struct FlatSize {
    pub refusal: u8,
    pub offset: usize,
    pub value: usize,
}

// Refused with any number: a refusal's, or another.
impl FlatComparison {
    // Answered with any sign; a comparison's is −1, 0 or 1.
    pub fn given(yes: bool, sign: i8, split: usize) -> Self
        ensures { result ≡ flat_comparison (gives (record { yes = yes; sign = sign; split = split })) }
    {
        Self {
            refusal: 0,
            yes,
            sign,
            split,
        }
    }

    pub fn refused(refusal: u8) -> Self
        ensures { result ≡ flat_comparison (refused refusal) }
    {
        Self {
            refusal,
            yes: false,
            sign: 0,
            split: 0,
        }
    }
}

impl FlatNumber {
    pub fn refused(refusal: u8) -> Self
        ensures { result ≡ flat_number (refused refusal) }
    {
        Self { refusal, value: 0 }
    }
}

impl FlatCue {
    pub fn refused(refusal: u8, word: u8) -> Self
        ensures { result ≡ flat_cue (refused refusal, word) }
    {
        Self {
            refusal,
            word,
            microphone: 0,
            loudspeaker: 0,
            gain: 0,
        }
    }
}

impl FlatSize {
    pub fn refused(refusal: u8, offset: usize) -> Self
        ensures { result ≡ flat_size (refused_at refusal offset) }
    {
        Self {
            refusal,
            offset,
            value: 0,
        }
    }
}

impl From<Result<Comparison, Refusal>> for FlatComparison {
    ghost from_gives = { λ a f. f ≡ flat_comparison (compared_of a) };

    fn from(a: Result<Comparison, Refusal>) -> FlatComparison {
        match a {
            Ok(c) => FlatComparison {
                refusal: 0,
                yes: c.yes,
                sign: c.sign as i8,
                split: c.split,
            },
            Err(refusal) => FlatComparison::refused(u8::from(refusal)),
        }
    }
}

impl From<Result<i64, Refusal>> for FlatNumber {
    ghost from_gives = { λ a f. f ≡ flat_number (answered a) };

    fn from(a: Result<i64, Refusal>) -> FlatNumber {
        match a {
            Ok(value) => FlatNumber { refusal: 0, value },
            Err(refusal) => FlatNumber::refused(u8::from(refusal)),
        }
    }
}

impl From<Result<Cue, CueFault>> for FlatCue {
    ghost from_gives = { λ a f. f ≡ flat_cue (cue_answered a, word_of a) };

    fn from(a: Result<Cue, CueFault>) -> FlatCue {
        match a {
            Ok(c) => FlatCue {
                refusal: 0,
                word: 0,
                microphone: c.microphone,
                loudspeaker: c.loudspeaker,
                gain: c.gain,
            },
            Err(fault) => FlatCue::refused(u8::from(fault.refusal), fault.word),
        }
    }
}

impl From<Result<usize, Fault>> for FlatSize {
    ghost from_gives = { λ a f. f ≡ flat_size (told_by a) };

    fn from(a: Result<usize, Fault>) -> FlatSize {
        match a {
            Ok(value) => FlatSize {
                refusal: 0,
                offset: 0,
                value,
            },
            Err(fault) => FlatSize::refused(u8::from(fault.refusal), fault.offset),
        }
    }
}

// The refusal's number of a call that answers nothing else, 0 for none. No `From`: both types are of other crates.
pub fn refusal_number(a: Result<(), Refusal>) -> u8
    ensures { result ≡ flat_done (answered a) }
{
    match a {
        Ok(()) => 0,
        Err(refusal) => u8::from(refusal),
    }
}
