// Strings, what a bounded copy gives, and parts of lent bytes.
ghost use Rattle.std.specs.Prelude.{◌≡◌};
ghost use Rattle.strlib.specs.Refusal.{refused, answered};
ghost use Rattle.flat.specs.Strings.{flat_string, flat_copied, flat_round, flat_part, flat_label};

use copying::Wrote;
use cutting::DeskLabel;
use joining::{Place, Round};
use strlib::{Refusal, StrPtr};

#[repr(C)]
#[derive(Clone, Copy)]
pub struct FlatString {
    pub refusal: u8,
    pub string: StrPtr,
}

#[repr(C)]
#[derive(Clone, Copy)]
pub struct FlatCopied {
    pub refusal: u8,
    pub completed: bool,
    pub to: StrPtr,
}

#[repr(C)]
#[derive(Clone, Copy)]
pub struct FlatRound {
    pub refusal: u8,
    pub completed: bool,
    pub to: StrPtr,
    pub next: Place,
}

// Where a part of lent bytes begins, and its length.
#[repr(C)]
#[derive(Clone, Copy)]
pub struct FlatPart {
    pub offset: usize,
    pub length: usize,
}

// A part of the house name, or else of the production name.
#[repr(C)]
#[derive(Clone, Copy)]
pub struct FlatLabel {
    pub house: bool,
    pub offset: usize,
    pub length: usize,
}

// Refused with any number: a refusal's, or another.
impl FlatString {
    pub fn refused(refusal: u8) -> Self
        ensures { result ≡ flat_string (refused refusal) }
    {
        Self {
            refusal,
            string: StrPtr::full(0, 0),
        }
    }
}

impl FlatCopied {
    pub fn refused(refusal: u8) -> Self
        ensures { result ≡ flat_copied (refused refusal) }
    {
        Self {
            refusal,
            completed: false,
            to: StrPtr::full(0, 0),
        }
    }
}

impl FlatRound {
    pub fn refused(refusal: u8) -> Self
        ensures { result ≡ flat_round (refused refusal) }
    {
        let copied = FlatCopied::refused(refusal);
        Self {
            refusal,
            completed: copied.completed,
            to: copied.to,
            next: Place {
                string: 0,
                character: 0,
            },
        }
    }
}

impl From<Result<StrPtr, Refusal>> for FlatString {
    ghost from_gives = { λ a f. f ≡ flat_string (answered a) };

    fn from(a: Result<StrPtr, Refusal>) -> FlatString {
        match a {
            Ok(string) => FlatString { refusal: 0, string },
            // written out: by a call of `refused` a written number takes a little longer
            Err(refusal) => FlatString {
                refusal: u8::from(refusal),
                string: StrPtr::new(0, 0, 0),
            },
        }
    }
}

impl From<Result<Wrote, Refusal>> for FlatCopied {
    ghost from_gives = { λ a f. f ≡ flat_copied (answered a) };

    fn from(a: Result<Wrote, Refusal>) -> FlatCopied {
        match a {
            Ok(w) => FlatCopied {
                refusal: 0,
                completed: w.completed,
                to: w.to,
            },
            Err(refusal) => FlatCopied::refused(u8::from(refusal)),
        }
    }
}

impl From<Result<Round, Refusal>> for FlatRound {
    ghost from_gives = { λ a f. f ≡ flat_round (answered a) };

    fn from(a: Result<Round, Refusal>) -> FlatRound {
        match a {
            Ok(r) => FlatRound {
                refusal: 0,
                completed: r.completed,
                to: r.to,
                next: r.next,
            },
            Err(refusal) => FlatRound::refused(u8::from(refusal)),
        }
    }
}

impl From<StrPtr> for FlatPart {
    ghost from_gives = { λ p f. f ≡ flat_part p };

    fn from(p: StrPtr) -> FlatPart {
        FlatPart {
            offset: p.start,
            length: p.length,
        }
    }
}

impl From<DeskLabel> for FlatLabel {
    ghost from_gives = { λ l f. f ≡ flat_label l };

    fn from(l: DeskLabel) -> FlatLabel {
        let (house, place) = match l {
            DeskLabel::Production(place) => (false, place),
            DeskLabel::House(place) => (true, place),
        };
        FlatLabel {
            house,
            offset: place.start,
            length: place.length,
        }
    }
}
