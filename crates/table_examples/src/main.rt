// Examples A to I of document 01, and a few more, through the plain search and through a table: one translation each,
// run over the host and over the host without its first character. A line says what the table's run gives, and whether
// the plain search gives the same. Where a line says less read than the host has, nothing that followed could change
// the answer (02, W12).
#![tactic(auto)]

ghost use Rattle.table_examples.specs.Two.{two_answered, SearchedTwo};

use saying::{Answer, Out, Spaced};
use search::Match;
use std::fmt;
use std::fmt::Write;
use strlib::{Refusal, StrList, StrPtr};
use table::{Note, Ran};

// A list is translated once, and two hosts are searched by its table: what the two runs answer.
fn search_two(
    store: &[u8],
    list: StrList,
    table: &mut [u16],
    store1: &[u8],
    host1: StrPtr,
    store2: &[u8],
    host2: StrPtr,
) -> Result<(Result<Ran, Refusal>, Result<Ran, Refusal>), Refusal>
    ensures { SearchedTwo store.now list.items list.count table.old store1.now host1 store2.now host2 (two_answered result) table.new }
{
    translator::translate(store, list, table)?;
    let first = table::run(store1, host1, table);
    let second = table::run(store2, host2, table);
    Ok((first, second))
}

// Whether the plain search gives this note; positions follow from the lengths of before and match.
fn is_plain(note: Option<Note>, plain: Result<Option<Match>, Refusal>) -> bool {
    match (note, plain) {
        (Some(note), Ok(Some(found))) => {
            note.string == found.number
                && note.pos1.checked_sub(1) == Some(found.before.length)
                && note.pos2.checked_sub(note.pos1) == Some(found.matched.length)
        }
        (None, Ok(None)) => true,
        _ => false,
    }
}

// What a run gives, and whether the plain search gives the same.
#[derive(Clone, Copy)]
struct Line {
    ran: Ran,
    same: bool,
}

impl fmt::Display for Line {
    fn fmt<W: fmt::Write>(&self, f: &mut fmt::Formatter<W>) -> fmt::Result {
        match self.ran.note {
            Some(note) => {
                write!(f, "{},{}", Spaced(note.string), Spaced(note.pos1))?;
                write!(f, " to{}, read", Spaced(note.pos2))?;
            }
            None => write!(f, " nothing, read")?,
        }
        let plain = if self.same {
            ", plain the same\n"
        } else {
            ", PLAIN DIFFERS\n"
        };
        write!(f, "{}{plain}", Spaced(self.ran.read))
    }
}

fn say_run(
    out: &mut Out,
    name: &str,
    answer: Result<Ran, Refusal>,
    plain: Result<Option<Match>, Refusal>,
) -> fmt::Result {
    let line = answer.map(|ran| Line {
        ran,
        same: is_plain(ran.note, plain),
    });
    write!(out, "{name}{}", Answer(line))
}

// A host of n characters at the front of its store, without its first character.
fn rest_of(n: usize) -> StrPtr {
    StrPtr::full(n.min(1), n.saturating_sub(1))
}

// Strings of these sizes, one behind the other.
fn strings_from(start: usize, sizes: &[usize]) -> StrList {
    let mut items = [StrPtr::full(0, 0); StrPtr::LIST_MAX];
    let mut at = start;
    for (item, n) in items.iter_mut().zip(sizes) {
        *item = StrPtr::full(at, *n);
        at = at.saturating_add(*n);
    }
    StrList {
        items,
        count: sizes.len(),
    }
}

// The store is the host, of n characters, followed by the strings, so that the plain search may read both.
fn show(out: &mut Out, name: &str, store: &[u8], n: usize, sizes: &[usize]) -> fmt::Result {
    let list = strings_from(n, sizes);
    let whole = StrPtr::full(0, n);
    let rest = rest_of(n);
    let mut words = [7; StrPtr::TABLE_MIN];
    match search_two(store, list, &mut words, store, whole, store, rest) {
        Ok((first, second)) => {
            say_run(out, name, first, search::search(store, whole, list))?;
            say_run(out, name, second, search::search(store, rest, list))
        }
        Err(refusal) => {
            let number = Spaced(u8::from(refusal));
            writeln!(out, "{name} not translated{number}")
        }
    }
}

fn examples(out: &mut Out) -> fmt::Result {
    show(out, "A", b"0123456789567893423", 10, &[5, 2, 2])?;
    show(out, "B", b"01234567893434567", 10, &[2, 5])?;
    show(out, "C", b"01234567893456734", 10, &[5, 2])?;
    show(out, "D", b"0123456789", 10, &[0])?;
    show(out, "E", b"012345678901234", 10, &[5, 0])?;
    show(out, "F", b"012345678923456", 10, &[5, 0])?;
    show(out, "G", b"a", 0, &[1])?;
    show(out, "H", b"abcxabcdbc", 4, &[4, 2])?;
    show(out, "I", b"abcdexabcdefbcde", 6, &[6, 2, 2])?;
    show(out, "first completed", b"abcdabcdbc", 4, &[4, 2])?;
    show(out, "no strings", b"0123456789", 10, &[])?;
    show(out, "sure where 'ab' ends", b"abxab", 3, &[2])?;
    show(out, "'abc' comes too late", b"abccababc", 4, &[2, 3])?;
    show(out, "'abcd' breaks off", b"abcxyzabcdbc", 6, &[4, 2])?;
    show(out, "null string last", b"axyab", 3, &[2, 0])?;
    show(out, "null string first", b"axyab", 3, &[0, 2])?;
    show(out, "33 strings", b"0123456789", 10, &[0; 33])?;
    show(out, "bad pointer", b"0123456789a", 10, &[2])?;
    show(out, "byte 128", b"0123456789\x80", 10, &[1])?;
    let characters = b"a\x7F\x00\x7F\x00\x00\x7F";
    show(out, "characters 0 and 127", characters, 4, &[2, 1])
}

fn main() {
    let _ = examples(&mut Out);
}
