// What was found, or that nothing was.
ghost use Rattle.std.specs.Prelude.{◌≡◌};
ghost use Rattle.strlib.specs.Refusal.{sought_answered};
ghost use Rattle.table.specs.Run.{ran_answered};
ghost use Rattle.desk.specs.Label.{label_placed, name_part};
ghost use Rattle.flat.specs.Strings.{flat_part};
ghost use Rattle.flat_finds.specs.Finds.{no_match, flat_match, no_split, flat_split, no_note, flat_note, no_character, flat_character, no_name, flat_name};

use charset::CharAt;
use desk::LabelPlace;
use flat::FlatPart;
use records::Fault;
use search::{Match, Split};
use strlib::{Refusal, StrPtr};
use table::Ran;

#[repr(C)]
#[derive(Clone, Copy)]
pub struct FlatMatch {
    pub refusal: u8,
    pub found: bool,
    pub number: usize,
    pub before: StrPtr,
    pub matched: StrPtr,
    pub after: StrPtr,
}

#[repr(C)]
#[derive(Clone, Copy)]
pub struct FlatSplit {
    pub refusal: u8,
    pub found: bool,
    pub number: usize,
    pub front: StrPtr,
    pub back: StrPtr,
}

#[repr(C)]
#[derive(Clone, Copy)]
pub struct FlatNote {
    pub refusal: u8,
    pub found: bool,
    pub string: usize,
    pub pos1: usize,
    pub pos2: usize,
    pub read: usize,
}

#[repr(C)]
#[derive(Clone, Copy)]
pub struct FlatCharacter {
    pub refusal: u8,
    pub found: bool,
    pub code: u8,
    pub position: usize,
}

#[repr(C)]
#[derive(Clone, Copy)]
pub struct FlatName {
    pub refusal: u8,
    pub found: bool,
    pub offset: usize,
    pub place: usize,
    pub length: usize,
}

// Nothing found, with 0, or refused with any number: a refusal's, or another.
impl FlatMatch {
    pub fn none(refusal: u8) -> Self
        ensures { result ≡ no_match refusal }
    {
        Self {
            refusal,
            found: false,
            number: 0,
            before: StrPtr::full(0, 0),
            matched: StrPtr::full(0, 0),
            after: StrPtr::full(0, 0),
        }
    }
}

impl From<Result<Option<Match>, Refusal>> for FlatMatch {
    ghost from_gives = { λ a f. f ≡ flat_match (sought_answered a) };

    fn from(a: Result<Option<Match>, Refusal>) -> FlatMatch {
        match a {
            Ok(Some(m)) => FlatMatch {
                refusal: 0,
                found: true,
                number: m.number,
                before: m.before,
                matched: m.matched,
                after: m.after,
            },
            Ok(None) => FlatMatch::none(0),
            Err(refusal) => FlatMatch::none(u8::from(refusal)),
        }
    }
}

impl FlatSplit {
    pub fn none(refusal: u8) -> Self
        ensures { result ≡ no_split refusal }
    {
        Self {
            refusal,
            found: false,
            number: 0,
            front: StrPtr::full(0, 0),
            back: StrPtr::full(0, 0),
        }
    }
}

impl From<Result<Option<Split>, Refusal>> for FlatSplit {
    ghost from_gives = { λ a f. f ≡ flat_split (sought_answered a) };

    fn from(a: Result<Option<Split>, Refusal>) -> FlatSplit {
        match a {
            Ok(Some(s)) => FlatSplit {
                refusal: 0,
                found: true,
                number: s.number,
                front: s.front,
                back: s.back,
            },
            Ok(None) => FlatSplit::none(0),
            Err(refusal) => FlatSplit::none(u8::from(refusal)),
        }
    }
}

impl FlatNote {
    pub fn none(refusal: u8, read: usize) -> Self
        ensures { result ≡ no_note refusal read }
    {
        Self {
            refusal,
            found: false,
            string: 0,
            pos1: 0,
            pos2: 0,
            read,
        }
    }
}

impl From<Result<Ran, Refusal>> for FlatNote {
    ghost from_gives = { λ a f. f ≡ flat_note (ran_answered a) };

    fn from(a: Result<Ran, Refusal>) -> FlatNote {
        match a {
            Ok(ran) => match ran.note {
                Some(n) => FlatNote {
                    refusal: 0,
                    found: true,
                    string: n.string,
                    pos1: n.pos1,
                    pos2: n.pos2,
                    read: ran.read,
                },
                None => FlatNote::none(0, ran.read),
            },
            Err(refusal) => FlatNote::none(u8::from(refusal), 0),
        }
    }
}

impl FlatCharacter {
    pub fn none(refusal: u8) -> Self
        ensures { result ≡ no_character refusal }
    {
        Self {
            refusal,
            found: false,
            code: 0,
            position: 0,
        }
    }
}

impl From<Result<Option<CharAt>, Refusal>> for FlatCharacter {
    ghost from_gives = { λ a f. f ≡ flat_character (sought_answered a) };

    fn from(a: Result<Option<CharAt>, Refusal>) -> FlatCharacter {
        match a {
            Ok(Some(c)) => FlatCharacter {
                refusal: 0,
                found: true,
                code: c.code,
                position: c.position,
            },
            Ok(None) => FlatCharacter::none(0),
            Err(refusal) => FlatCharacter::none(u8::from(refusal)),
        }
    }
}

impl FlatName {
    pub fn none(refusal: u8, offset: usize) -> Self
        ensures { result ≡ no_name refusal offset }
    {
        Self {
            refusal,
            found: false,
            offset,
            place: 0,
            length: 0,
        }
    }
}

impl From<Result<Option<LabelPlace>, Fault>> for FlatName {
    ghost from_gives = { λ a f. f ≡ flat_name (label_placed a) };

    fn from(a: Result<Option<LabelPlace>, Fault>) -> FlatName {
        match a {
            Ok(Some(name)) => FlatName {
                refusal: 0,
                found: true,
                offset: 0,
                place: name.place,
                length: name.length,
            },
            Ok(None) => FlatName::none(0, 0),
            Err(fault) => FlatName::none(u8::from(fault.refusal), fault.offset),
        }
    }
}

// A found name as a part: the empty one at the front on a refusal or no record. No `From`: this answer has another.
#[tactic(auto, unfolding(desk::specs::Label::name_part))]
pub fn name_part(a: Result<Option<LabelPlace>, Fault>) -> FlatPart
    ensures { result ≡ flat_part (name_part (label_placed a)) }
{
    match a {
        Ok(Some(name)) => FlatPart::from(StrPtr::full(name.place, name.length)),
        Ok(None) => FlatPart::from(StrPtr::full(0, 0)),
        Err(_) => FlatPart::from(StrPtr::full(0, 0)),
    }
}
