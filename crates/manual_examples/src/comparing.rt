// 3.1 and 5.1, the comparative routines. A comparison is written as yes or no, the sign of the lengths, and the split.
use compare::Comparison;
use saying::{Answer, Out, Spaced, Yes};
use std::cmp::Ordering;
use std::fmt;
use std::fmt::Write;
use strlib::StrPtr;

const EQUAL: usize = 0;

const GREATER_OR_EQUAL: usize = 2;

const GREATER: usize = 4;

const LESS: usize = 5;

const PADDED: usize = 0;

const EXACT: usize = 1;

const IGNORE: usize = 2;

#[derive(Clone, Copy)]
struct Compared(Comparison);

impl fmt::Display for Compared {
    fn fmt<W: fmt::Write>(&self, f: &mut fmt::Formatter<W>) -> fmt::Result {
        let Comparison { yes, sign, split } = self.0;
        write!(f, "{}", Yes(yes))?;
        match sign {
            Ordering::Less => write!(f, " -1")?,
            _ => write!(f, "{}", Spaced(sign as i8))?,
        }
        writeln!(f, "{}", Spaced(split))
    }
}

// A statement number of three or four digits.
#[derive(Clone, Copy)]
struct Statement(usize);

impl fmt::Display for Statement {
    fn fmt<W: fmt::Write>(&self, f: &mut fmt::Formatter<W>) -> fmt::Result {
        if self.0 < 1000 {
            write!(f, " ")?;
        }
        write!(f, "{}", Spaced(self.0))
    }
}

fn compare(
    store: &[u8],
    string1: StrPtr,
    string2: StrPtr,
    code: usize,
    style: usize,
    translation: i64,
) -> Answer<Compared> {
    let answer = compare::compare(store, string1, string2, code, style, translation);
    Answer(answer.map(Compared))
}

fn level_one(out: &mut Out, store: &[u8]) -> fmt::Result {
    let istr = StrPtr::full(0, 5);
    let astr = StrPtr::full(5, 5);
    let calls = [
        ("3.1  eqlstr", astr, EQUAL),
        ("3.1  lesstr", astr, LESS),
        ("3.1  geqstr", StrPtr::full(10, 10), GREATER_OR_EQUAL),
    ];
    for (name, string2, code) in calls {
        write!(
            out,
            "{name}{}",
            compare(store, istr, string2, code, PADDED, 0)
        )?;
    }
    Ok(())
}

pub(crate) fn section_3_1(out: &mut Out) -> fmt::Result {
    level_one(out, b"aaa  bbb  aaa       ")
}

// The calls at their statement numbers, without a translation.
fn styles(out: &mut Out, store: &[u8]) -> fmt::Result {
    let abcde = StrPtr::full(0, 5);
    let xyz = StrPtr::full(5, 5);
    let abc = StrPtr::full(10, 5);
    let np_abc = StrPtr::full(10, 3);
    let calls = [
        (100, abcde, xyz, LESS, PADDED),
        (200, xyz, abcde, LESS, PADDED),
        (300, abcde, abc, EQUAL, IGNORE),
        (400, abcde, abc, GREATER, IGNORE),
        (500, abcde, np_abc, EQUAL, IGNORE),
        (600, abcde, np_abc, GREATER, IGNORE),
        (700, np_abc, abc, EQUAL, EXACT),
        (800, np_abc, abc, LESS, EXACT),
        (900, np_abc, abc, EQUAL, PADDED),
        (1000, np_abc, abc, EQUAL, EXACT),
    ];
    for (number, string1, string2, code, style) in calls {
        let answer = compare(store, string1, string2, code, style, 0);
        write!(out, "5.1{}{answer}", Statement(number))?;
    }
    Ok(())
}

// The calls at their statement numbers, for equality of padded strings. The manual means capitals: it gives octal 101
// as the code of "a".
fn translations(out: &mut Out, store: &[u8]) -> fmt::Result {
    let abcde = StrPtr::full(0, 5);
    let s12345 = StrPtr::full(5, 5);
    let abcd0 = StrPtr::full(10, 5);
    let calls = [
        (1100, abcde, s12345, 16),
        (1200, s12345, abcde, -16),
        (1300, abcd0, StrPtr::full(15, 5), 16),
        (1400, abcd0, StrPtr::full(15, 4), 16),
    ];
    for (number, string1, string2, translation) in calls {
        let answer = compare(store, string1, string2, EQUAL, PADDED, translation);
        write!(out, "5.1{}{answer}", Statement(number))?;
    }
    Ok(())
}

pub(crate) fn section_5_1(out: &mut Out) -> fmt::Result {
    styles(out, b"abcdexyz  abc  ")?;
    translations(out, b"ABCDE12345ABCD01234 ")
}
