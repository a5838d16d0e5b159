// Words parted by blanks and lines ended by byte 10, in a plain text. Each function takes any place, also one past the
// text's end.
#![tactic(auto)]

ghost use Rattle.std.specs.Prelude.{◌≡◌};
ghost use Rattle.words.specs.Lines.{next_line};
ghost use Rattle.words.specs.Words.{same, pointer_of, next_word};
ghost use Rattle.words.specs.Alike.{common};
ghost use Rattle.words.specs.Ends.{blanks_end, end_of};

use strlib::StrPtr;

const LINE_END: u8 = 10;

// A word or a line: the bytes from one place up to another, and the place from which the next one is sought.
#[derive(Clone, Copy)]
pub struct Piece {
    pub from: usize,
    pub to: usize,
    pub next: usize,
}

impl Piece {
    // The piece as a string of the text.
    pub fn pointer(self) -> StrPtr
        ensures { result ≡ pointer_of self }
    {
        StrPtr::full(self.from, self.to.saturating_sub(self.from))
    }
}

// How many bytes two texts begin alike with.
pub fn alike(a: &[u8], b: &[u8]) -> usize
    ensures { result ≡ common a.now b.now }
{
    let differ = a.iter().zip(b).position(|(x, y)| x != y);
    differ.unwrap_or(a.len().min(b.len()))
}

// Whether two texts are the same, byte by byte.
pub fn are_same(a: &[u8], b: &[u8]) -> bool
    ensures { result ≡ same a.now b.now }
{
    a == b
}

// The first place from `at` on that has no blank. A place at the text's end, as behind a line's last word, is told at
// once: a line of few words has its missing ones there.
pub fn blanks_end(text: &[u8], at: usize) -> usize
    ensures { result ≡ blanks_end text.now at }
{
    if text.len() <= at {
        return at;
    }
    let left = &text[at..];
    at + left.iter().position(|c| *c != b' ').unwrap_or(left.len())
}

// The first place from `at` on that has the byte, or the end.
fn byte_end(text: &[u8], at: usize, byte: u8) -> usize
    ensures { result ≡ end_of byte text.now at }
{
    if text.len() <= at {
        return at;
    }
    let left = &text[at..];
    at + left.iter().position(|c| *c == byte).unwrap_or(left.len())
}

// The first word from `at` on; an empty piece where there is none.
#[tactic(auto, using(crate::proofs::Wording::word_found))]
pub fn next_word(text: &[u8], at: usize) -> Piece
    ensures { result ≡ next_word text.now at }
{
    let from = blanks_end(text, at);
    let to = byte_end(text, from, b' ');
    Piece { from, to, next: to }
}

// The line that begins at `at`; the next one begins behind the byte 10.
pub fn next_line(text: &[u8], at: usize) -> Piece
    ensures { result ≡ next_line text.now at }
{
    let to = byte_end(text, at, LINE_END);
    let next = if to < text.len() { to + 1 } else { to };
    Piece { from: at, to, next }
}
