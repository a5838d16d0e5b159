// 5.5, conversions of numbers. cnvstr fills a converted number with blanks or zeros to the old length; here a number
// has the fewest digits.
use saying::{Answer, Last, Out, Spaced, string_answer};
use std::fmt;
use std::fmt::Write;
use strlib::StrPtr;

// -20 into five characters.
fn write(out: &mut Out, name: &str, base: usize) -> fmt::Result {
    let mut store = [b' '; 5];
    let answer = number::write(&mut store, StrPtr::full(0, 5), -20, base);
    write!(out, "{name}{}", string_answer(&store, answer))
}

fn reading(out: &mut Out, store: &[u8]) -> fmt::Result {
    let leading = StrPtr::full(0, 5);
    let calls = [
        ("5.5  inum 10", leading, 10),
        ("5.5  inum 8", leading, 8),
        ("5.5  trailing blank", StrPtr::full(5, 5), 10),
    ];
    for (name, string, base) in calls {
        let answer = number::read(store, string, base);
        let value = answer.map(|value| Last(Spaced(value)));
        write!(out, "{name}{}", Answer(value))?;
    }
    Ok(())
}

fn writing(out: &mut Out) -> fmt::Result {
    write(
        out,
        "5.5  toasci 10 (manual: filled with blanks in front)",
        10,
    )?;
    write(
        out,
        "5.5  toasci 8 (manual: filled with blanks in front)",
        8,
    )?;
    write(
        out,
        "5.5  zeropa 10 (manual: '-0024', filled with zeros, and of base 8)",
        10,
    )?;
    write(out, "5.5  nofill 10 (manual: '-24', of base 8)", 10)
}

pub(crate) fn section_5_5(out: &mut Out) -> fmt::Result {
    reading(out, b"  -12 -12 ")?;
    writing(out)
}
