// The refusals of documents 01 and 02, by their numbers.
ghost use Rattle.std.specs.Prelude.{◌≡◌};
ghost use Rattle.strlib.specs.Refusal.{refusal_number};

#[derive(Clone, Copy, Debug, PartialEq, Eq, Hash)]
pub enum Refusal {
    // a pointer that is not good
    Pointer = 1,
    // a string that is read has a byte over 127; a label's name one outside 32 to 126
    Character = 2,
    // a store, a list or another argument is outside its range
    Range = 3,
    // a position, an offset, a length or a resume place is outside its bounds
    Position = 4,
    // a source's characters share a byte with the destination's room
    Overlap = 5,
    // no room
    Room = 6,
    // no number
    NoNumber = 7,
    // a number outside its range
    Value = 8,
    // a list or a table's room does not do for a translation
    Translation = 9,
    // words that are no table
    Table = 10,
    // a cue line not of its form, or no kind of label
    Form = 11,
    // a number outside the matrix, the labels or the gains
    Matrix = 12,
    // a record cut short
    Short = 13,
    // a record repeated
    Repeated = 14,
}

impl From<Refusal> for u8 {
    ghost from_gives = { λ refusal n. n ≡ refusal_number refusal };

    fn from(refusal: Refusal) -> u8 {
        refusal as u8
    }
}
