// 3.3, routines which return substrings. Section 3.5 counts by the first of these functions too.
use saying::{Out, Shown, Spaced, given};
use std::fmt;
use std::fmt::Write;
use strlib::StrPtr;

pub(crate) fn counted(store: &[u8], string: StrPtr, position: usize, count: usize) -> StrPtr {
    given(cutting::counted(store, string, position, count))
}

fn between(store: &[u8], string: StrPtr, pos1: usize, pos2: usize) -> StrPtr {
    given(cutting::between(store, string, pos1, pos2))
}

fn cuts(out: &mut Out, store: &[u8], digits: StrPtr) -> fmt::Result {
    let sps = [
        (1, given(cutting::relative(store, digits, 2))),
        (2, counted(store, digits, 1, 6)),
        (3, between(store, digits, 7, 9)),
        (4, between(store, digits, 7, 0)),
    ];
    for (number, string) in sps {
        writeln!(out, "3.3  sp{}{}", Spaced(number), Shown { store, string })?;
    }
    Ok(())
}

pub(crate) fn section_3_3(out: &mut Out) -> fmt::Result {
    cuts(out, b"1122334455", StrPtr::full(0, 10))
}
