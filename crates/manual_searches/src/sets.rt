// 5.4, character-searching. The strings put into tables are taken without a literal's padding: it would put blank into
// table 1 and take it out of table 4, in which befchr is to find it.
use super::cuts::{between, relative};
use charset::CharAt;
use saying::{Answer, Out, Spaced, show};
use std::fmt;
use std::fmt::Write;
use strlib::{Refusal, StrPtr};

type Block = [u64; StrPtr::BLOCK_WORDS];

// The tables that a, 1, plus, point, blank and tab are in: of each the sum of their masks.
#[derive(Clone, Copy)]
struct Sums(Block);

impl fmt::Display for Sums {
    fn fmt<W: fmt::Write>(&self, f: &mut fmt::Formatter<W>) -> fmt::Result {
        let block = &self.0;
        let sum = |character| Spaced(block[character]);
        write!(f, "{}{}{}", sum(97), sum(49), sum(43))?;
        writeln!(f, "{}{}{}", sum(46), sum(32), sum(9))
    }
}

// The character found, or position 0 and code 0, as fndchr has it.
fn character_of(answer: Result<Option<CharAt>, Refusal>) -> CharAt {
    match answer {
        Ok(Some(at)) => at,
        _ => CharAt {
            position: 0,
            code: 0,
        },
    }
}

fn first(store: &[u8], host: StrPtr, block: &Block, mask: u64) -> CharAt {
    character_of(charset::find_first(store, host, block, mask))
}

fn last(store: &[u8], host: StrPtr, block: &Block, mask: u64) -> CharAt {
    character_of(charset::find_last(store, host, block, mask))
}

// Its position and its code.
fn show_character(out: &mut Out, name: &str, c: CharAt) -> fmt::Result {
    writeln!(out, "{name}{}{}", Spaced(c.position), Spaced(c.code))
}

// All characters but those of the string: tabstr with one bit of its mask off.
fn fill_but(store: &[u8], string: StrPtr, block: &mut Block, mask: u64) -> Result<(), Refusal> {
    charset::fill_tables(block, mask)?;
    charset::remove_characters(store, string, block, mask)
}

// The vowels in table 1 and all but blank in table 2.
fn two_tables(store: &[u8], block: &mut Block) -> Result<(), Refusal> {
    charset::add_characters(store, StrPtr::full(0, 5), block, 1)?;
    fill_but(store, StrPtr::full(5, 1), block, 2)
}

// Digits and signs in table 1, tab out of table 2, all but digits and signs in table 4.
fn three_tables(store: &[u8], block: &mut Block) -> Result<(), Refusal> {
    charset::clear_tables(block, 1)?;
    charset::add_characters(store, StrPtr::full(9, 10), block, 1)?;
    charset::add_characters(store, StrPtr::full(19, 3), block, 1)?;
    charset::remove_characters(store, StrPtr::full(6, 1), block, 2)?;
    fill_but(store, StrPtr::full(7, 12), block, 4)
}

// The left parenthesis in table 8 and the right one in table 16.
fn parenthesis_tables(store: &[u8], block: &mut Block) -> Result<(), Refusal> {
    charset::add_characters(store, StrPtr::full(11, 1), block, 8)?;
    charset::add_characters(store, StrPtr::full(12, 1), block, 16)
}

fn say_tables(out: &mut Out, block: &Block, made: Result<(), Refusal>) -> fmt::Result {
    let answer = Answer(made.map(|()| Sums(*block)));
    write!(out, "5.4  tables of a, 1, plus, point, blank, tab:{answer}")
}

// What stands in sp1 before the first character that is no digit or sign.
fn before_other(
    out: &mut Out,
    name: &str,
    store: &[u8],
    sp1: StrPtr,
    block: &Block,
) -> fmt::Result {
    let c = first(store, sp1, block, 4);
    show(out, name, store, between(store, sp1, 1, c.position))
}

// sp1 is what stands after the first character that is no blank and no tab, or, as the manual's text has it, from that
// character on.
fn stripped(out: &mut Out, store: &[u8], numlst: StrPtr, block: &Block) -> fmt::Result {
    let c = first(store, numlst, block, 2);
    let after = relative(store, numlst, c.position);
    let from = between(store, numlst, c.position, 0);
    before_other(
        out,
        "5.4  sp2 (manual: '+73', but aftchr leaves the match out)",
        store,
        after,
        block,
    )?;
    before_other(out, "5.4  sp2 with the match", store, from, block)
}

// The innermost parentheses: from the last left one to the first right one after it. The host starts at 1 in the store,
// so that the start of what stands after the right one is innrp.
fn innermost(out: &mut Out, store: &[u8], expres: StrPtr, block: &Block) -> fmt::Result {
    let left = last(store, expres, block, 8);
    show_character(out, "5.4  innlp", left)?;
    let part = between(store, expres, left.position, 0);
    let right = first(store, part, block, 16);
    let rest = relative(store, part, right.position);
    writeln!(out, "5.4  innrp{}", Spaced(rest.start))?;
    let sp3 = between(store, expres, left.position, rest.start);
    show(out, "5.4  sp3", store, sp3)
}

// The first left parenthesis: the host cut before it, then asked of the first character alone.
fn first_left(out: &mut Out, store: &[u8], expres: StrPtr, block: &Block) -> fmt::Result {
    let c = first(store, expres, block, 8);
    let sp1 = between(store, expres, c.position, 0);
    let sp2 = between(store, expres, 1, c.position);
    show(
        out,
        "5.4  allchr sp1 (manual: 'i+(j+k)-)', the match left out)",
        store,
        sp1,
    )?;
    show(out, "5.4  allchr sp2 (manual: '(', the match)", store, sp2)?;
    let c = first(store, between(store, expres, 1, 2), block, 8);
    show_character(out, "5.4  anchor (manual: 0)", c)
}

fn parentheses(out: &mut Out, store: &[u8], expres: StrPtr, block: &mut Block) -> fmt::Result {
    match parenthesis_tables(store, block) {
        Ok(()) => {
            innermost(out, store, expres, block)?;
            first_left(out, store, expres, block)
        }
        Err(refusal) => writeln!(out, "5.4  refused{}", Spaced(u8::from(refusal))),
    }
}

fn searches(out: &mut Out, block: &mut Block) -> fmt::Result {
    stripped(out, b" +73 24   ", StrPtr::full(0, 10), block)?;
    parentheses(out, b" (i+(j+k)-)()", StrPtr::full(1, 10), block)
}

fn tables(out: &mut Out, store: &[u8]) -> fmt::Result {
    let mut block = [0; StrPtr::BLOCK_WORDS];
    let made = two_tables(store, &mut block);
    say_tables(out, &block, made)?;
    let made = three_tables(store, &mut block);
    say_tables(out, &block, made)?;
    searches(out, &mut block)
}

pub(crate) fn section_5_4(out: &mut Out) -> fmt::Result {
    tables(out, b"aeiou \t+-1234567890.-+")
}
