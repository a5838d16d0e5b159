// How the programs of examples write an answer. A write that fails loses its piece alone, so the pieces count: each
// literal and each piece of a Display is one write, and what follows a name writes its own leading blank.
#![tactic(auto)]

ghost use Rattle.std.specs.Prelude.{◌≡◌, Ok, Err, IfOk, IfErr, length, take};

use std::convert::AsSlice;
use std::fmt;
use std::fmt::Write;
use strlib::{Refusal, StrList, StrPtr};

// Writes a text of any bytes as it is. One that could not be written is passed over, so that a program ends as it did.
pub fn say(text: &[u8]) {
    io::write_all(1, text);
}

// Standard output. A character up to 255 is the byte that a string has, so that any string is written as it is.
#[derive(Clone, Copy)]
pub struct Out;

impl fmt::Write for Out {
    fn write_str(&mut self, text: &str) -> fmt::Result {
        if text.is_ascii() {
            say(text.as_bytes());
            return Ok(());
        }
        for c in text.chars() {
            match u8::try_from(c) {
                Ok(byte) => say(&[byte]),
                Err(_) => say(c.encode_utf8(&mut [0; 4]).as_bytes()),
            }
        }
        Ok(())
    }
}

// A value behind a blank.
#[derive(Clone, Copy)]
pub struct Spaced<T>(pub T);

// A value that ends its line.
#[derive(Clone, Copy)]
pub struct Last<T>(pub T);

// Of a test: yes or no.
#[derive(Clone, Copy)]
pub struct Yes(pub bool);

// A string in its store: its characters, its length and its maximum.
#[derive(Clone, Copy)]
pub struct Shown<'a> {
    pub store: &'a [u8],
    pub string: StrPtr,
}

// What a search gives, or that there is nothing, to the end of the line; what is found ends it itself.
#[derive(Clone, Copy)]
pub struct Found<T>(pub Option<T>);

// What a call answers, to the end of the line: its value, which ends it itself, or the refusal's number.
#[derive(Clone, Copy)]
pub struct Answer<T>(pub Result<T, Refusal>);

impl<T: fmt::Display> fmt::Display for Spaced<T> {
    fn fmt<W: fmt::Write>(&self, f: &mut fmt::Formatter<W>) -> fmt::Result {
        write!(f, " {}", self.0)
    }
}

impl<T: fmt::Display> fmt::Display for Last<T> {
    fn fmt<W: fmt::Write>(&self, f: &mut fmt::Formatter<W>) -> fmt::Result {
        writeln!(f, "{}", self.0)
    }
}

impl fmt::Display for Yes {
    fn fmt<W: fmt::Write>(&self, f: &mut fmt::Formatter<W>) -> fmt::Result {
        let word = if self.0 { " yes" } else { " no" };
        write!(f, "{word}")
    }
}

impl fmt::Display for Shown<'_> {
    fn fmt<W: fmt::Write>(&self, f: &mut fmt::Formatter<W>) -> fmt::Result {
        let text = strlib::text(self.store, self.string);
        write!(f, " '")?;
        match str::from_utf8(text) {
            // one text, and so one write
            Ok(characters) if characters.is_ascii() => write!(f, "{characters}")?,
            _ => {
                for byte in text {
                    write!(f, "{}", char::from(*byte))?;
                }
            }
        }
        write!(
            f,
            "'{} of{}",
            Spaced(self.string.length),
            Spaced(self.string.maximum)
        )
    }
}

impl<T: fmt::Display> fmt::Display for Found<T> {
    fn fmt<W: fmt::Write>(&self, f: &mut fmt::Formatter<W>) -> fmt::Result {
        match &self.0 {
            Some(found) => write!(f, "{found}"),
            None => writeln!(f, " nothing"),
        }
    }
}

impl<T: fmt::Display> fmt::Display for Answer<T> {
    fn fmt<W: fmt::Write>(&self, f: &mut fmt::Formatter<W>) -> fmt::Result {
        match &self.0 {
            Ok(value) => write!(f, "{value}"),
            Err(refusal) => writeln!(f, " refused{}", Spaced(u8::from(*refusal))),
        }
    }
}

// Of a call that gives a string or refuses.
pub fn string_answer(store: &[u8], answer: Result<StrPtr, Refusal>) -> Answer<Last<Shown>>
    ensures string { IfOk result.0 (λ shown. answer ≡ Ok shown.0.string) }
    ensures store { IfOk result.0 (λ shown. shown.0.store.now ≡ store.now) }
    ensures refusal { IfErr result.0 (λ refusal. answer ≡ Err refusal) }
{
    Answer(answer.map(|string| Last(Shown { store, string })))
}

// A line for a string. Its name is a text or any bytes, and each of the two is one write.
pub fn show<N: AsSlice<u8> + Drop>(
    out: &mut Out,
    name: N,
    store: &[u8],
    string: StrPtr,
) -> fmt::Result {
    say(name.as_slice());
    say(b" '");
    say(strlib::text(store, string));
    writeln!(
        out,
        "'{} of{}",
        Spaced(string.length),
        Spaced(string.maximum)
    )
}

// The string that a call gave, to go on with; the null string where it refused.
pub fn given(answer: Result<StrPtr, Refusal>) -> StrPtr {
    answer.unwrap_or(StrPtr::full(0, 0))
}

// A list of these strings. It has room for 32: more give a count that a call refuses.
pub fn list_of(strings: &[StrPtr]) -> StrList
    ensures counted { result.count ≡ length strings.now }
    ensures listed { take result.count result.items ≡ take 32 strings.now }
{
    let room = strings.len().min(StrPtr::LIST_MAX);
    let mut items = [StrPtr::full(0, 0); StrPtr::LIST_MAX];
    items[..room].copy_from_slice(&strings[..room]);
    StrList {
        items,
        count: strings.len(),
    }
}
