// `translate`: the checks, then the rows of all texts, level by level.
ghost use Rattle.std.specs.Prelude.{◌≡◌, [], ◌+◌, ◌≤◌, ◌<◌, length};
ghost use Rattle.strlib.specs.Pointer.{texts};
ghost use Rattle.strlib.specs.Refusal.{answered};
ghost use Rattle.states.specs.State.{total, RowAt};
ghost use Rattle.states.specs.Fill.{Stepped, Levels};
ghost use Rattle.translator.specs.Translate.{Table, Translated};
ghost use Rattle.translator.specs.Inner.{Ready, Turn, Leveled, Rows};
ghost use Rattle.translator.specs.Common.{Alike, AlikeTo};

use super::alike::Numbers;
use strlib::{Refusal, StrList, StrPtr};

// The row of the first l characters of x, if there are so many. Gives the state of the tail of one character more.
fn fill_state(
    store: &[u8],
    strings: &[StrPtr],
    x: &[u8],
    alike: &Numbers,
    l: usize,
    q: usize,
    fail: usize,
    table: &mut [u16],
) -> usize
    requires { Ready store.now (texts store.now strings.now) table.old × Turn (texts store.now strings.now) table.old x.now l q fail × AlikeTo (texts store.now strings.now) alike.now x.now }
    ensures { Stepped (texts store.now strings.now) table.old table.new x.now l q result }
{
    if x.len() < l {
        return 0;
    }
    let next = super::next_fail(table, x, l, fail);
    super::fill_row(store, strings, &x[..l], alike, q, fail, table);
    next
}

// The rows of all texts of l characters.
fn fill_level(
    store: &[u8],
    strings: &[StrPtr],
    alike: &[Numbers; StrPtr::LIST_MAX],
    l: usize,
    table: &mut [u16],
    fails: &mut [usize; StrPtr::LIST_MAX],
)
    requires { Ready store.now (texts store.now strings.now) table.old × (0 < l) × (l ≤ 240) × Levels (texts store.now strings.now) table.old fails.old l 0 × Alike (texts store.now strings.now) alike.now }
    ensures { Leveled (texts store.now strings.now) table.old table.new fails.new (l + 1) }
{
    let mut off = 0;
    for (j, p) in strings.iter().enumerate() {
        let x = strlib::text(store, *p);
        fails[j] = fill_state(
            store,
            strings,
            x,
            &alike[j],
            l,
            off + l + 1,
            fails[j],
            table,
        );
        off += x.len();
    }
}

// The rows of all texts of n characters at most.
fn fill_levels(
    store: &[u8],
    strings: &[StrPtr],
    alike: &[Numbers; StrPtr::LIST_MAX],
    n: usize,
    table: &mut [u16],
)
    requires { Ready store.now (texts store.now strings.now) table.old × (n ≡ total (texts store.now strings.now)) × RowAt (texts store.now strings.now) table.old 1 [] × Alike (texts store.now strings.now) alike.now }
    ensures { Rows (texts store.now strings.now) table.old table.new }
{
    let mut fails = [1; StrPtr::LIST_MAX];
    for l in 1..=n {
        fill_level(store, strings, alike, l, table, &mut fails);
    }
}

fn build(store: &[u8], strings: &[StrPtr], table: &mut [u16])
    requires { Ready store.now (texts store.now strings.now) table.old }
    ensures { Table (texts store.now strings.now) table.old table.new }
{
    let n = preparing::total_of(store, strings);
    table[0] = (n + 2) as u16;
    let mut alike = [[0; StrPtr::LIST_MAX]; StrPtr::LIST_MAX];
    super::alike::fill_alike(store, strings, &mut alike);
    super::root_row(store, strings, &alike[0], table);
    fill_levels(store, strings, &alike, n, table);
}

// The table of a list, for any number of hosts.
pub fn translate(store: &[u8], list: StrList, table: &mut [u16]) -> Result<(), Refusal>
    ensures { Translated store.now list.items list.count table.old (answered result) table.new }
{
    preparing::check_translate(store, &list, table.len())?;
    build(store, list.strings(), table);
    Ok(())
}
