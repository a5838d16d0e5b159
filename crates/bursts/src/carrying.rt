// What is carried: whether it is at fault, and where a run rests that carries it.
ghost use Rattle.std.specs.Prelude.{◌≡◌, true, eqb};
ghost use Rattle.table.specs.Run.{rests};
ghost use Rattle.table.specs.Inner.{rests_of, note_of};
ghost use Rattle.bursts.specs.Bursts.{carried_note, carried_by, is_note, agrees, is_sound};

use super::Carried;
use strlib::StrPtr;
use table::{Note, Progress};

// Not a note that W5 counts among those that no run could make.
#[tactic(auto, unfolding(crate::specs::Bursts::is_note))]
fn is_note(c: Carried) -> bool
    ensures { result ≡ is_note c.read (carried_note c) }
{
    !c.noted
        || 1 <= c.string
            && c.string <= StrPtr::LIST_MAX
            && 1 <= c.pos1
            && c.pos1 <= c.pos2
            && c.pos2 - 1 <= c.read
}

// State 0 exactly if stopped.
#[tactic(auto, unfolding(crate::specs::Bursts::agrees))]
fn agrees(stopped: bool, state: usize) -> bool
    ensures { result ≡ agrees stopped state }
{
    if stopped { state == 0 } else { 1 <= state }
}

#[tactic(auto, unfolding(crate::specs::Bursts::is_sound))]
pub(super) fn is_sound(c: Carried) -> bool
    ensures { result ≡ is_sound c }
{
    agrees(c.stopped, c.state) && c.read <= c.total && is_note(c)
}

// Where a run rests that carries this: string 0 for no note.
#[tactic(auto, unfolding(crate::specs::Bursts::is_note, search::specs::Inner::placed))]
pub(super) fn progress_of(c: Carried) -> Progress
    requires { is_note c.read (carried_note c) ≡ true }
    ensures { rests_of result ≡ rests c.state c.read (carried_note c) }
{
    Progress {
        state: c.state,
        read: c.read,
        last: Note {
            string: if c.noted { c.string } else { 0 },
            pos1: c.pos1,
            pos2: c.pos2,
        },
    }
}

// What is carried on from there.
#[tactic(auto, unfolding(crate::specs::Bursts::fresh))]
pub(super) fn carried_of(at: Progress, total: usize) -> Carried
    ensures { result ≡ carried_by at.state at.read total (note_of at.last) (eqb at.state 0) }
{
    let carried = Carried {
        state: at.state,
        read: at.read,
        total,
        stopped: at.state == 0,
        ..Carried::fresh()
    };
    match at.note() {
        Some(note) => Carried {
            noted: true,
            string: note.string,
            pos1: note.pos1,
            pos2: note.pos2,
            ..carried
        },
        None => carried,
    }
}
