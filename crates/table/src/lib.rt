// The run of a search table: 01, "The search table". Any words and any bytes; a word is looked at only when it is met.
#![tactic(auto)]

mod onward;
mod runs;

ghost use Rattle.std.specs.Prelude.{◌≡◌, true, ◌+◌, ◌≤◌, length};
ghost use Rattle.strlib.specs.Pointer.{characters};
ghost use Rattle.table.specs.Run.{size_of, enter, step, walk, noted_as};
ghost use Rattle.table.specs.Inner.{note_of, rests_of, walked_of, Entered};

pub use onward::resume;
pub use runs::{Ran, run};
use strlib::StrPtr;

#[derive(Clone, Copy)]
pub struct Note {
    pub string: usize,
    pub pos1: usize,
    pub pos2: usize,
}

// Where a run rests: the state that it has entered (0: it stopped), the number read, the last note (string 0: none). An
// `Option` was tried for the note: where every character has one, the run took a tenth longer (docs/DESIGN-PASS.md).
#[derive(Clone, Copy)]
pub struct Progress {
    pub state: usize,
    pub read: usize,
    pub last: Note,
}

impl Progress {
    #[tactic(auto, unfolding(search::specs::Inner::placed))]
    pub fn note(self) -> Option<Note>
        ensures { noted_as result ≡ note_of self.last }
    {
        if self.last.string == 0 {
            None
        } else {
            Some(self.last)
        }
    }
}

// Words of a state: the next states by character, then the string's number, then the length.
pub const STATE_WORDS: usize = 130;

pub const STRING_WORD: usize = 128;

pub const LENGTH_WORD: usize = 129;

pub fn wide(x: u16) -> usize
    ensures { result ≡ x }
{
    x as usize
}

// Word 0, the number of states; 0 where there is none.
fn size_of(table: &[u16]) -> usize
    ensures { result ≡ size_of table.now }
{
    if table.len() == 0 {
        return 0;
    }
    wide(table[0])
}

// The state is entered: its string, if it has one, is noted. None if its words are no table's.
#[tactic(auto, unfolding(crate::specs::Run::enter, search::specs::Inner::placed))]
fn enter(table: &[u16], size: usize, at: Progress) -> Option<Progress>
    requires { Entered table.now size at.state at.read }
    ensures { walked_of result ≡ enter table.now at.state at.read (note_of at.last) }
{
    let q = at.state;
    if q == 0 {
        return Some(at);
    }
    let f = wide(table[1 + STATE_WORDS * q + STRING_WORD]);
    if f == 0 {
        return Some(at);
    }
    if StrPtr::LIST_MAX < f {
        return None;
    }
    let l = wide(table[1 + STATE_WORDS * q + LENGTH_WORD]);
    let n = at.read;
    if n < l {
        return None;
    }
    Some(Progress {
        state: q,
        read: n,
        last: Note {
            string: f,
            pos1: n - l + 1,
            pos2: n + 1,
        },
    })
}

// One character is read and the next state entered.
#[tactic(auto, unfolding(crate::specs::Run::step))]
fn step(table: &[u16], size: usize, at: Progress, c: u8) -> Option<Progress>
    requires { Entered table.now size at.state (at.read + 1) × (c ≤ 127) × (at.state ≡ 0 → ⊥) }
    ensures { walked_of result ≡ step table.now size (rests_of at) c }
{
    let next = wide(table[1 + STATE_WORDS * at.state + c as usize]);
    if size <= next {
        return None;
    }
    enter(
        table,
        size,
        Progress {
            state: next,
            read: at.read + 1,
            last: at.last,
        },
    )
}

// The characters of a text are read one by one, until the run stops.
#[tactic(auto, using(crate::proofs::Running::walk_laws))]
fn walk(text: &[u8], table: &[u16], size: usize, from: Progress) -> Option<Progress>
    requires { Entered table.now size from.state (from.read + length text.now) × (characters text.now ≡ true) }
    ensures { walked_of result ≡ walk table.now size text.now (rests_of from) }
{
    let mut at = from;
    for c in text {
        if at.state == 0 {
            return Some(at);
        }
        at = step(table, size, at, *c)?;
    }
    Some(at)
}

// The state is entered, and a text is read from there.
#[tactic(auto, using(crate::proofs::Running::on_laws))]
fn read_on(text: &[u8], table: &[u16], size: usize, from: Progress) -> Option<Progress>
    requires { Entered table.now size from.state (from.read + length text.now) × (characters text.now ≡ true) }
    ensures { walked_of result ≡ walk table.now size text.now (enter table.now from.state from.read (note_of from.last)) }
{
    walk(text, table, size, enter(table, size, from)?)
}
