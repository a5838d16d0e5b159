// The search table: translating a list, the run over a host, and over one that comes in bursts.
ghost use Rattle.std.specs.Prelude.{◌≡◌};
ghost use Rattle.table.specs.Run.{run_rule};
ghost use Rattle.translator.specs.Translate.{Translated};
ghost use Rattle.bursts.specs.Bursts.{fresh, burst_rule};
ghost use Rattle.flat_finds.specs.Finds.{flat_note};
ghost use Rattle.flat_finds.specs.Runs.{flat_burst};
ghost use Rattle.flat.specs.Values.{done};

use bursts::Carried;
use flat_finds::{FlatBurst, FlatNote};
use strlib::{StrList, StrPtr};

#[unsafe(no_mangle)]
pub extern "C" fn strlib_translate(store: &[u8], list: StrList, table: &mut [u16]) -> u8
    ensures { Translated store.now list.items list.count table.old (done result) table.new }
{
    flat::refusal_number(translator::translate(store, list, table))
}

#[unsafe(no_mangle)]
pub extern "C" fn strlib_run(store: &[u8], host: StrPtr, table: &[u16]) -> FlatNote
    ensures { result ≡ flat_note (run_rule store.now host table.now) }
{
    FlatNote::from(table::run(store, host, table))
}

#[unsafe(no_mangle)]
pub extern "C" fn strlib_fresh_run() -> Carried
    ensures { result ≡ fresh }
{
    Carried::fresh()
}

#[unsafe(no_mangle)]
pub extern "C" fn strlib_burst(carried: Carried, burst: &[u8], table: &[u16]) -> FlatBurst
    ensures { result ≡ flat_burst carried (burst_rule carried burst.now table.now) }
{
    flat_finds::burst(carried, bursts::burst(carried, burst, table))
}
