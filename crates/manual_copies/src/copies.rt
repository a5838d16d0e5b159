// 3.0, 3.2 and 5.2, the copying routines.
use copying::Wrote;
use joining::{Place, Round};
use saying::{Answer, Out, Shown, Spaced, Yes, given, list_of};
use std::fmt;
use std::fmt::Write;
use strlib::{Refusal, StrPtr};

// Whether the copy was completed, and the destination.
#[derive(Clone, Copy)]
struct Copied<'a> {
    store: &'a [u8],
    wrote: Wrote,
}

impl fmt::Display for Copied<'_> {
    fn fmt<W: fmt::Write>(&self, f: &mut fmt::Formatter<W>) -> fmt::Result {
        let Wrote { to, completed } = self.wrote;
        writeln!(
            f,
            "{}{}",
            Yes(completed),
            Shown {
                store: self.store,
                string: to
            }
        )
    }
}

// The same of a round, and the next place.
#[derive(Clone, Copy)]
struct Rounded<'a> {
    store: &'a [u8],
    round: Round,
}

impl fmt::Display for Rounded<'_> {
    fn fmt<W: fmt::Write>(&self, f: &mut fmt::Formatter<W>) -> fmt::Result {
        let r = self.round;
        write!(
            f,
            "{}{}",
            Yes(r.completed),
            Shown {
                store: self.store,
                string: r.to
            }
        )?;
        writeln!(
            f,
            ", next{}{}",
            Spaced(r.next.string),
            Spaced(r.next.character)
        )
    }
}

// The destination is also given, to go on with.
fn show_copied(
    out: &mut Out,
    name: &str,
    store: &[u8],
    answer: Result<Wrote, Refusal>,
) -> Result<StrPtr, fmt::Error> {
    write!(
        out,
        "{name}{}",
        Answer(answer.map(|wrote| Copied { store, wrote }))
    )?;
    Ok(given(answer.map(|wrote| wrote.to)))
}

fn copy(
    out: &mut Out,
    name: &str,
    store: &mut [u8],
    destination: StrPtr,
    source: StrPtr,
) -> Result<StrPtr, fmt::Error> {
    let answer = copying::copy(store, destination, source, false);
    show_copied(out, name, store, answer)
}

fn append(
    out: &mut Out,
    name: &str,
    store: &mut [u8],
    destination: StrPtr,
    source: StrPtr,
) -> Result<StrPtr, fmt::Error> {
    let answer = copying::append(store, destination, source);
    show_copied(out, name, store, answer)
}

fn join(
    out: &mut Out,
    name: &str,
    store: &mut [u8],
    destination: StrPtr,
    strings: &[StrPtr],
    pad: bool,
) -> Result<StrPtr, fmt::Error> {
    let answer = joining::join(store, destination, list_of(strings), pad);
    show_copied(out, name, store, answer)
}

// Two destinations, of 12 and of 20 characters.
fn cut_or_not(out: &mut Out, store: &mut [u8], source: StrPtr) -> fmt::Result {
    copy(out, "3.0  i1", store, StrPtr::new(15, 0, 12), source)?;
    copy(out, "3.0  i2", store, StrPtr::new(27, 0, 20), source)?;
    Ok(())
}

pub(crate) fn section_3_0(out: &mut Out) -> fmt::Result {
    let mut store = *b"is 15 characs                                  ";
    cut_or_not(out, &mut store, StrPtr::full(0, 15))
}

// copstr, appstr and catstr.
fn copied_and_joined(out: &mut Out, store: &mut [u8], istring: StrPtr, l1: StrPtr) -> fmt::Result {
    copy(out, "3.2  copstr", store, istring, StrPtr::full(0, 5))?;
    let l1 = append(
        out,
        "3.2  appstr (manual: without d1's last blank)",
        store,
        l1,
        StrPtr::full(5, 10),
    )?;
    join(
        out,
        "3.2  catstr",
        store,
        StrPtr::new(60, 0, 45),
        &[l1, istring, StrPtr::full(15, 5)],
        false,
    )?;
    Ok(())
}

// The literal ' abc', d1 and the literal 'more', then istring, l1 and storag.
pub(crate) fn section_3_2(out: &mut Out) -> fmt::Result {
    let mut store =
        *b" abc a d-p one more      a data-varying string                                                           ";
    copied_and_joined(
        out,
        &mut store,
        StrPtr::full(20, 5),
        StrPtr::new(25, 22, 35),
    )
}

// chkstr's four strings of five characters, at the front of the store, into the seven bytes behind them. The next place
// is also given.
fn round(
    out: &mut Out,
    call: usize,
    remark: &str,
    store: &mut [u8],
    from: Place,
) -> Result<Place, fmt::Error> {
    let list = list_of(&[
        StrPtr::full(0, 5),
        StrPtr::full(5, 5),
        StrPtr::full(10, 5),
        StrPtr::full(15, 5),
    ]);
    let answer = joining::join_from(store, StrPtr::new(20, 0, 7), list, from);
    let rounded = Answer(answer.map(|round| Rounded { store, round }));
    write!(out, "5.2  100 call{}{remark}{rounded}", Spaced(call))?;
    Ok(answer.map_or(from, |round| round.next))
}

// Part one. The manual says that seven characters are written the third time too; only six are left.
fn rounds(out: &mut Out, store: &mut [u8], first: Place) -> fmt::Result {
    let second = round(out, 1, "", store, first)?;
    let third = round(out, 2, "", store, second)?;
    round(out, 3, " (manual: seven characters)", store, third)?;
    Ok(())
}

// Part two, cmbstr: two strings appended, then two joined with padding over a length of 40.
fn combined(out: &mut Out, store: &mut [u8], l1: StrPtr) -> fmt::Result {
    let l1 = append(out, "5.2  append more1", store, l1, StrPtr::full(40, 5))?;
    let l1 = append(out, "5.2  append more2", store, l1, StrPtr::full(45, 5))?;
    let halves = [StrPtr::full(50, 10), StrPtr::full(60, 15)];
    join(out, "5.2  pad", store, l1.sized(40), &halves, true)?;
    Ok(())
}

pub(crate) fn section_5_2(out: &mut Out) -> fmt::Result {
    let mut store = *b"1122 3344 5566 7788        ";
    let first = Place {
        string: 1,
        character: 1,
    };
    rounds(out, &mut store, first)?;
    let mut store = *b"start                                   more1more2first halfsecond half    ";
    combined(out, &mut store, StrPtr::new(0, 5, 40))
}
