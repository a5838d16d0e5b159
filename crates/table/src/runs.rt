// `run`: the checks, then the run over the host from state 1 with nothing read.
ghost use Rattle.std.specs.Prelude.{◌≡◌, true, ◌≤◌, length};
ghost use Rattle.strlib.specs.Pointer.{characters};
ghost use Rattle.strlib.specs.Refusal.{number_found};
ghost use Rattle.table.specs.Run.{is_sized, run_over, ran_answered, run_rule};
ghost use Rattle.table.specs.Inner.{walked_of, before_run};

use super::{Note, Progress};
use strlib::{Refusal, StrPtr};

// The last note, and the number read.
#[derive(Clone, Copy)]
pub struct Ran {
    pub note: Option<Note>,
    pub read: usize,
}

// Whether the first word is a number of states, with a word for each of theirs.
#[tactic(auto, unfolding(crate::specs::Run::is_sized))]
pub(super) fn is_sized(table: &[u16]) -> bool
    ensures { result ≡ is_sized table.now }
{
    let size = super::size_of(table);
    StrPtr::STATES_MIN <= size
        && size <= StrPtr::STATES_MAX
        && 1 + super::STATE_WORDS * size <= table.len()
}

// What is refused before a state is entered.
#[tactic(auto, using(strlib::proofs::Answering::answer_laws), unfolding(crate::specs::Inner::before_run))]
fn check_run(store: &[u8], host: StrPtr, table: &[u16]) -> Result<(), Refusal>
    ensures { number_found result ≡ before_run store.now host table.now }
{
    strlib::check_store(store)?;
    strlib::check_good(store.len(), host)?;
    strlib::check_readable(store, host)?;
    strlib::check(is_sized(table), Refusal::Table)
}

// The run over a text, from state 1 with nothing read.
#[tactic(auto, using(crate::proofs::Running::start_laws))]
fn run_over(text: &[u8], table: &[u16]) -> Option<Progress>
    requires { (is_sized table.now ≡ true) × (characters text.now ≡ true) × (length text.now ≤ 65536) }
    ensures { walked_of result ≡ run_over table.now text.now }
{
    super::read_on(
        text,
        table,
        super::size_of(table),
        Progress {
            state: 1,
            read: 0,
            last: Note {
                string: 0,
                pos1: 0,
                pos2: 0,
            },
        },
    )
}

// The run of a table over a host.
#[tactic(auto, using(crate::proofs::Running::run_laws))]
pub fn run(store: &[u8], host: StrPtr, table: &[u16]) -> Result<Ran, Refusal>
    ensures { ran_answered result ≡ run_rule store.now host table.now }
{
    check_run(store, host, table)?;
    let at = run_over(strlib::text(store, host), table).ok_or(Refusal::Table)?;
    Ok(Ran {
        note: at.note(),
        read: at.read,
    })
}
