// 3.4 and 5.3, the routines which search strings.
use super::cuts::{between, relative};
use saying::{Answer, Found, Out, Shown, Spaced, list_of, show};
use search::{Match, Split};
use std::fmt;
use std::fmt::Write;
use strlib::{Refusal, StrPtr};

// The number of the string found, and before, match and after.
#[derive(Clone, Copy)]
struct Matched<'a> {
    store: &'a [u8],
    found: Match,
}

impl fmt::Display for Matched<'_> {
    fn fmt<W: fmt::Write>(&self, f: &mut fmt::Formatter<W>) -> fmt::Result {
        let shown = |string| Shown {
            store: self.store,
            string: string,
        };
        let m = self.found;
        write!(f, "{} before{}", Spaced(m.number), shown(m.before))?;
        writeln!(f, ", match{}, after{}", shown(m.matched), shown(m.after))
    }
}

// The number of the string found, and the host in two.
#[derive(Clone, Copy)]
struct Halves<'a> {
    store: &'a [u8],
    split: Split,
}

impl fmt::Display for Halves<'_> {
    fn fmt<W: fmt::Write>(&self, f: &mut fmt::Formatter<W>) -> fmt::Result {
        let shown = |string| Shown {
            store: self.store,
            string: string,
        };
        let s = self.split;
        writeln!(f, "{}{}{}", Spaced(s.number), shown(s.front), shown(s.back))
    }
}

// One search of digits, at the front of the store, gives what befstr, whistr, aftstr and allstr give: the part of the
// example, and the first of the pointers that the call sets.
fn search(out: &mut Out, part: usize, sp: usize, store: &[u8], strings: &[StrPtr]) -> fmt::Result {
    let answer = search::search(store, StrPtr::full(0, 10), list_of(strings));
    let matched = answer.map(|at| Found(at.map(|found| Matched { store, found })));
    let answer = Answer(matched);
    write!(out, "3.4  part{} sp{}{answer}", Spaced(part), Spaced(sp))
}

// Part 0 is the example in the text.
fn parts(out: &mut Out, store: &[u8], null: StrPtr) -> fmt::Result {
    let s34567 = StrPtr::full(10, 5);
    let s56789 = StrPtr::full(15, 5);
    let s01234 = StrPtr::full(20, 5);
    let l2 = StrPtr::full(35, 2);
    let l3 = StrPtr::full(37, 2);
    search(out, 0, 0, store, &[s56789, s01234])?;
    search(out, 1, 1, store, &[s34567])?;
    search(out, 2, 1, store, &[s56789, l2, l3])?;
    search(out, 2, 2, store, &[l3, l2, s56789])?;
    search(out, 2, 3, store, &[StrPtr::full(25, 5)])?;
    search(out, 2, 4, store, &[StrPtr::full(30, 5)])?;
    search(out, 2, 5, store, &[l2, s34567])?;
    search(out, 2, 6, store, &[s34567, l2])?;
    search(out, 3, 1, store, &[null])?;
    search(out, 3, 4, store, &[s01234, null])?;
    search(out, 3, 7, store, &[StrPtr::full(37, 5), null])
}

// allstr with one of its pointers 0.
fn show_split(
    out: &mut Out,
    name: &str,
    store: &[u8],
    answer: Result<Option<Split>, Refusal>,
) -> fmt::Result {
    let halves = answer.map(|found| Found(found.map(|split| Halves { store, split })));
    write!(out, "{name}{}", Answer(halves))
}

fn part_four(out: &mut Out, store: &[u8], digits: StrPtr) -> fmt::Result {
    let l2 = list_of(&[StrPtr::full(35, 2)]);
    let answer = search::search_match_after(store, digits, l2);
    show_split(
        out,
        "3.4  part 4 sp2 sp1 (manual: sp2 is '12')",
        store,
        answer,
    )?;
    let l3 = list_of(&[StrPtr::full(37, 2)]);
    let answer = search::search_before_match(store, digits, l3);
    show_split(
        out,
        "3.4  part 4 sp3 sp4 (manual: sp3 is '123')",
        store,
        answer,
    )
}

fn digits(out: &mut Out, store: &[u8]) -> fmt::Result {
    parts(out, store, StrPtr::full(42, 0))?;
    part_four(out, store, StrPtr::full(0, 10))
}

// The host, then the literals '34567', '56789', '01234', 'abcde' and '012', then '34' (l2), and '23456' with '23' (l3)
// at its front.
pub(crate) fn section_3_4(out: &mut Out) -> fmt::Result {
    digits(out, b"0123456789345675678901234abcde012  3423456")
}

// fndstr: the position, the number of the string (which) and the length of the match, which is given. The hosts of 5.3
// start at 1 in their stores, so that the start of a part is its position in the host.
fn find(
    out: &mut Out,
    name: &str,
    store: &[u8],
    host: StrPtr,
    strings: &[StrPtr],
) -> Result<StrPtr, fmt::Error> {
    match search::search(store, host, list_of(strings)) {
        Ok(Some(found)) => {
            let Match {
                number,
                matched,
                ..
            } = found;
            let p = matched;
            writeln!(
                out,
                "{name}{}{}{}",
                Spaced(p.start),
                Spaced(number),
                Spaced(p.length)
            )?;
            Ok(matched)
        }
        _ => {
            writeln!(out, "{name} nothing")?;
            Ok(StrPtr::full(0, 0))
        }
    }
}

// Part one: '345' and '123' in digits.
fn which_or_length(out: &mut Out, store: &[u8], digits: StrPtr) -> fmt::Result {
    let s345 = StrPtr::full(11, 5);
    let l1 = StrPtr::full(16, 3);
    find(out, "5.3  cc", store, digits, &[s345, l1])?;
    Ok(())
}

fn extension(out: &mut Out, store: &[u8], filnam: StrPtr) -> fmt::Result {
    let part = between(store, filnam, 2, 8);
    let point = StrPtr::full(11, 1);
    let bracket = StrPtr::full(12, 1);
    find(out, "5.3  ccext", store, part, &[point, bracket])?;
    Ok(())
}

// Part two: the end of ':' and the start of '['. To anchor a string of one character is to search the part.
fn stepped(out: &mut Out, store: &[u8], filspc: StrPtr) -> fmt::Result {
    let colon = StrPtr::full(11, 1);
    let bracket = StrPtr::full(12, 1);
    let part = between(store, filspc, 2, 8);
    let p = find(out, "5.3  colon", store, part, &[colon])?;
    let rest = relative(store, p, 1);
    writeln!(out, "5.3  hasdev{}", Spaced(rest.start))?;
    let part = between(store, filspc, rest.start, 0);
    let p = find(out, "5.3  hasppn", store, part, &[bracket])?;
    let name = between(store, filspc, rest.start, p.start);
    show(out, "5.3  file name", store, name)
}

pub(crate) fn section_5_3(out: &mut Out) -> fmt::Result {
    let host = StrPtr::full(1, 10);
    which_or_length(out, b" 0123456789345  123", host)?;
    extension(out, b" file.ext  .[", host)?;
    stepped(out, b" d:f.x[1,2]:[", host)
}
