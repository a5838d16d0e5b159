// The reader. It marks each kind and number that it met, so that its work grows with the list only.
ghost use Rattle.std.specs.Prelude.{◌≡◌};
ghost use Rattle.records.specs.Told.{told_by};
ghost use Rattle.desk.specs.Label.{read_labels_rule};
ghost use Rattle.desk.specs.LabelInner.{Markable, mark_of};

use records::Fault;
use strlib::Refusal;

// Marks of one kind, for the numbers from 0 on, and marks in all.
const ROW: usize = records::LOUDSPEAKERS_MAX + 1;

const MARKS: usize = 3 * ROW;

// Where a kind and number are marked.
#[tactic(auto, using(crate::proofs::LabelReading::mark_laws))]
fn mark_of(kind: usize, number: usize) -> usize
    requires { Markable kind number }
    ensures { result ≡ mark_of kind number }
{
    ROW * kind + number
}

// How many records a list has, or what the first faulty one is refused with and where it lies. A good list has no kind
// and number twice and so 192 records at most: of a longer list, record 193 is the last that may be looked at.
pub fn read_labels(list: &[u8]) -> Result<usize, Fault>
    ensures { told_by result ≡ read_labels_rule list.now }
{
    // a set in fixed memory: the library has no heap
    let mut met = [false; MARKS];
    let mut offset = 0;
    let mut n = 0;
    // not a `for`: the kind of a record says where the next begins
    while offset < list.len() {
        let rest = records::rest_of(list, offset);
        records::check_body(rest).map_err(|refusal| Fault { refusal, offset })?;
        let kind = records::kind_of(rest);
        let mark = mark_of(kind, records::number_of(rest));
        if met[mark] {
            return Err(Fault {
                refusal: Refusal::Repeated,
                offset,
            });
        }
        met[mark] = true;
        offset += records::size_of(kind);
        n += 1;
    }
    Ok(n)
}
