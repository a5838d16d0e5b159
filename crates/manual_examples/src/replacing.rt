// 3.5, miscellaneous routines.
use super::substrings::counted;
use saying::{Out, Spaced, given, show, string_answer};
use std::fmt;
use std::fmt::Write;
use strlib::StrPtr;

// The manual's calls of repstr, numbered from 1: the second is at 300, the third at 301, the fifth in the note.
fn replace(
    out: &mut Out,
    number: usize,
    store: &mut [u8],
    string1: StrPtr,
    string2: StrPtr,
    string3: StrPtr,
) -> fmt::Result {
    let answer = editing::replace(store, string1, string2, string3);
    let answer = string_answer(store, answer);
    write!(out, "3.5  repstr{}{answer}", Spaced(number))
}

// bldstr, and repstr with the literal 'abc', at 25, before and after setstr.
fn padded_literal(out: &mut Out, store: &mut [u8], abc: StrPtr) -> fmt::Result {
    let sp1 = StrPtr::full(0, 20);
    let place = counted(store, sp1, 2, 0);
    show(out, "3.5  bldstr", store, sp1)?;
    replace(out, 1, store, sp1, place, abc)?;
    let sp1 = StrPtr::new(0, 20, 25);
    replace(out, 2, store, sp1, place, abc)
}

// The call at 301 stands in place of the one at 300.
fn trimmed_literal(out: &mut Out, store: &mut [u8], abc: StrPtr) -> fmt::Result {
    let sp1 = StrPtr::new(0, 20, 25);
    let place = counted(store, sp1, 2, 0);
    let np = given(cutting::trim(store, abc));
    show(out, "3.5  trcstr", store, np)?;
    replace(out, 3, store, sp1, place, np)
}

// The record that the manual reads into inblk is ours.
fn inserted(out: &mut Out) -> fmt::Result {
    let abc = StrPtr::full(25, 5);
    let mut store = *b"12345678901234567890     abc  ";
    padded_literal(out, &mut store, abc)?;
    let mut store = *b"12345678901234567890     abc  ";
    trimmed_literal(out, &mut store, abc)
}

// revstr from l1 into l2, then in l1.
fn reverse(out: &mut Out, store: &mut [u8], l1: StrPtr, l2: StrPtr) -> fmt::Result {
    let answer = editing::reverse_from(store, l2, l1);
    write!(out, "3.5  sp2{}", string_answer(store, answer))?;
    show(out, "3.5  l2", store, l2)?;
    let answer = editing::reverse(store, l1);
    write!(out, "3.5  sp3{}", string_answer(store, answer))
}

// The replacement takes the second and the third character out of l1.
fn reversed(out: &mut Out, store: &mut [u8], l1: StrPtr, l2: StrPtr) -> fmt::Result {
    reverse(out, store, l1, l2)?;
    show(out, "3.5  setstr l2", store, l2.sized(6))?;
    let part = counted(store, l1, 2, 2);
    replace(out, 4, store, l1, part, StrPtr::full(15, 0))
}

// The literal '23' is no part of the literal '12345', though its characters stand there.
fn other_place(out: &mut Out, store: &mut [u8]) -> fmt::Result {
    let s12345 = StrPtr::full(0, 5);
    let s23 = StrPtr::full(5, 5);
    replace(out, 5, store, s12345, s23, StrPtr::full(10, 5))
}

pub(crate) fn section_3_5(out: &mut Out) -> fmt::Result {
    inserted(out)?;
    let mut store = *b"1234 abcdefg   ";
    reversed(out, &mut store, StrPtr::new(0, 4, 5), StrPtr::new(5, 7, 10))?;
    let mut store = *b"1234523   bc   ";
    other_place(out, &mut store)
}
