// Cue lines: `MIC n TO LSP m GAIN g`.
ghost use Rattle.std.specs.Prelude.{◌≡◌, cond};
ghost use Rattle.strlib.specs.Pointer.{text_of};
ghost use Rattle.strlib.specs.Refusal.{number_found, answered};
ghost use Rattle.words.specs.Words.{same, first_words};
ghost use Rattle.desk.specs.Cue.{is_size, is_gain, wrong_word, cue_answered, word_of, cue_word_rule};
ghost use Rattle.desk.specs.CueInner.{without_word, fault_found, formless, index_of, in_matrix, line_refusal};

use strlib::{Refusal, StrPtr};

// What microphone goes to what loudspeaker, and how loud, in tenths of a decibel.
#[derive(Clone, Copy)]
pub struct Cue {
    pub microphone: usize,
    pub loudspeaker: usize,
    pub gain: i64,
}

// What a line is refused with, and with 11 a word: 0 for a line that is too long, else the first wrong or missing fixed
// word or missing number, from 1, else 8 for an eighth word. With every other number the word is 0. It is a number as
// `cue_word_rule` and C have it.
#[derive(Clone, Copy)]
pub struct CueFault {
    pub refusal: Refusal,
    pub word: u8,
}

// Every refusal but a wrong word's.
impl From<Refusal> for CueFault {
    ghost from_gives = { λ refusal fault. fault ≡ without_word refusal };

    fn from(refusal: Refusal) -> CueFault {
        CueFault { refusal, word: 0 }
    }
}

impl Cue {
    // Characters in a line.
    pub const LINE_MAX: usize = 80;

    // The largest matrix.
    pub const MICROPHONES_MAX: usize = records::MICROPHONES_MAX;

    pub const LOUDSPEAKERS_MAX: usize = records::LOUDSPEAKERS_MAX;

    // The range of a gain.
    pub const GAIN_MIN: i64 = -960;

    pub const GAIN_MAX: i64 = 120;
}

// A line has seven words; an eighth must not be there.
type CueWords = [StrPtr; 8];

const BASE: usize = 10;

// The first eight words of a line; where there are fewer, empty strings stand at the end.
fn first_words(line: &[u8]) -> CueWords
    ensures { result ≡ first_words 8 line.now 0 }
{
    let none = StrPtr::full(0, 0);
    let mut list = [none; 8];
    let mut at = 0;
    for place in list.iter_mut() {
        let word = words::next_word(line, at);
        *place = word.pointer();
        at = word.next;
    }
    list
}

#[tactic(auto, using(crate::proofs::CueWords::word_laws))]
fn is_word(line: &[u8], word: StrPtr, fixed: &[u8]) -> bool
    ensures { result ≡ same (text_of line.now word) fixed.now }
{
    words::are_same(strlib::text(line, word), fixed)
}

fn check_word(ok: bool, word: u8) -> Result<(), CueFault>
    ensures { fault_found result ≡ cond ok (0, 0) (11, word) }
{
    if ok {
        return Ok(());
    }
    Err(CueFault {
        refusal: Refusal::Form,
        word,
    })
}

// Finds the first wrong or missing fixed word or missing number, from 1; else an eighth word. What stands in a number's
// place is not read here.
fn check_words(line: &[u8], list: &CueWords) -> Result<(), CueFault>
    requires { list.now ≡ first_words 8 line.now 0 }
    ensures { fault_found result ≡ formless (wrong_word line.now) }
{
    check_word(is_word(line, list[0], b"MIC"), 1)?;
    check_word(1 <= list[1].length, 2)?;
    check_word(is_word(line, list[2], b"TO"), 3)?;
    check_word(is_word(line, list[3], b"LSP"), 4)?;
    check_word(1 <= list[4].length, 5)?;
    check_word(is_word(line, list[5], b"GAIN"), 6)?;
    check_word(1 <= list[6].length, 7)?;
    check_word(list[7].length == 0, 8)
}

#[tactic(auto, using(crate::proofs::CueReading::line_laws))]
fn is_size(size: usize, most: usize) -> bool
    ensures { result ≡ is_size most size }
{
    strlib::both(1 <= size, size <= most)
}

// The checks that come before the words.
fn check_line(line: &[u8], mics: usize, lsps: usize) -> Result<(), Refusal>
    ensures { number_found result ≡ line_refusal line.now mics lsps }
{
    strlib::check_store(line)?;
    strlib::check(is_size(mics, Cue::MICROPHONES_MAX), Refusal::Range)?;
    strlib::check(is_size(lsps, Cue::LOUDSPEAKERS_MAX), Refusal::Range)?;
    strlib::check_characters(line)?;
    strlib::check(line.len() <= Cue::LINE_MAX, Refusal::Form)
}

// The number as one from 1 to `most`, or 0.
fn index_of(value: i64, most: usize) -> usize
    ensures { result ≡ index_of most value }
{
    if value < 1 {
        return 0;
    }
    let index = value as usize;
    if index <= most {
        return index;
    }
    0
}

#[tactic(auto, using(crate::proofs::CueNumbers::gain_laws))]
fn is_gain(value: i64) -> bool
    ensures { result ≡ is_gain value }
{
    strlib::both(Cue::GAIN_MIN <= value, value <= Cue::GAIN_MAX)
}

fn in_matrix(mics: usize, lsps: usize, n: i64, m: i64, g: i64) -> Result<Cue, Refusal>
    ensures { answered result ≡ in_matrix mics lsps n m g }
{
    let microphone = index_of(n, mics);
    let loudspeaker = index_of(m, lsps);
    let placed = strlib::both(1 <= microphone, 1 <= loudspeaker);
    if strlib::both(placed, is_gain(g)) {
        return Ok(Cue {
            microphone,
            loudspeaker,
            gain: g,
        });
    }
    Err(Refusal::Matrix)
}

// Reads a cue line, which is its own store, for a matrix of `mics` by `lsps`. The numbers are read from left to right.
pub fn read_cue(line: &[u8], mics: usize, lsps: usize) -> Result<Cue, CueFault>
    ensures { (cue_answered result, word_of result) ≡ cue_word_rule line.now mics lsps }
{
    check_line(line, mics, lsps)?;
    let list = first_words(line);
    check_words(line, &list)?;
    let n = number::read(line, list[1], BASE)?;
    let m = number::read(line, list[4], BASE)?;
    let g = number::read(line, list[6], BASE)?;
    Ok(in_matrix(mics, lsps, n, m, g)?)
}
