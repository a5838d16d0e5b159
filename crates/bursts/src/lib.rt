// The run of a search table over a host that comes in bursts: 02, W5. What is carried goes by value, so that a refused
// burst leaves it as it was.
#![tactic(auto)]

mod carrying;

ghost use Rattle.std.specs.Prelude.{◌≡◌};
ghost use Rattle.strlib.specs.Refusal.{number_found, answered};
ghost use Rattle.bursts.specs.Bursts.{fresh, burst_rule};
ghost use Rattle.bursts.specs.Inner.{own_refusal};

use strlib::{Refusal, StrPtr};

// What a run carries from burst to burst; unless `noted`, string, pos1 and pos2 say nothing. It crosses the C boundary
// as it is.
#[repr(C)]
#[derive(Clone, Copy)]
pub struct Carried {
    pub state: usize,
    pub read: usize,
    pub total: usize,
    pub noted: bool,
    pub string: usize,
    pub pos1: usize,
    pub pos2: usize,
    pub stopped: bool,
}

impl Carried {
    // Characters of a burst.
    pub const BURST_MAX: usize = 300;

    // A run to which no burst was given.
    #[tactic(auto, unfolding(crate::specs::Bursts::fresh))]
    pub fn fresh() -> Self
        ensures { result ≡ fresh }
    {
        Self {
            state: 1,
            read: 0,
            total: 0,
            noted: false,
            string: 0,
            pos1: 0,
            pos2: 0,
            stopped: false,
        }
    }
}

// What is refused without a look at the table.
#[tactic(auto, using(strlib::proofs::Answering::answer_laws), unfolding(crate::specs::Inner::own_refusal))]
fn check_own(carried: Carried, burst: &[u8]) -> Result<(), Refusal>
    ensures { number_found result ≡ own_refusal carried burst.now }
{
    let n = burst.len();
    strlib::check(n <= Carried::BURST_MAX, Refusal::Range)?;
    strlib::check(
        strlib::is_within(StrPtr::STORE_MAX, carried.total, n),
        Refusal::Range,
    )?;
    strlib::check_characters(burst)?;
    strlib::check(carrying::is_sound(carried), Refusal::Table)
}

// One burst of a host; what is carried on has the answer for all bursts that were taken. A run that has not stopped
// enters its carried state anew, for an empty burst too. Whether the words have a table's size and the carried state is
// tested by `resume`, before it reads anything: 10 in either case.
pub fn burst(carried: Carried, burst: &[u8], table: &[u16]) -> Result<Carried, Refusal>
    ensures { answered result ≡ burst_rule carried burst.now table.now }
{
    check_own(carried, burst)?;
    let from = carrying::progress_of(carried);
    let at = table::resume(burst, table, from).ok_or(Refusal::Table)?;
    let total = carried.total + burst.len();
    Ok(carrying::carried_of(at, total))
}
