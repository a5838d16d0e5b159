// Adding a label behind a good list in a lent buffer.
ghost use Rattle.std.specs.Prelude.{◌≡◌};
ghost use Rattle.records.specs.Told.{told_by};
ghost use Rattle.desk.specs.Label.{add_rule};
ghost use Rattle.desk.specs.LabelInner.{add_told};

use super::read;
use records::Fault;
use strlib::Refusal;

// The checks, each with its offset.
fn check_add(
    buffer: &[u8],
    used: usize,
    kind: usize,
    number: usize,
    name: &[u8],
) -> Result<(), Fault>
    ensures { told_by result ≡ add_told buffer.now used kind number name.now }
{
    if buffer.len() < used {
        return Err(Fault {
            refusal: Refusal::Position,
            offset: used,
        });
    }
    let list = &buffer[..used];
    read::read_labels(list)?;
    records::check_new(list, buffer.len() - used, kind, number, name).map_err(|refusal| Fault {
        refusal,
        offset: list.len(),
    })
}

// Adds one record behind the list, which is the first `used` bytes of the buffer. The answer is the list's new length.
pub fn add_label(
    buffer: &mut [u8],
    used: usize,
    kind: usize,
    number: usize,
    name: &[u8],
) -> Result<usize, Fault>
    ensures { (told_by result, buffer.new) ≡ add_rule buffer.old used kind number name.now }
{
    check_add(buffer, used, kind, number, name)?;
    records::write_record(buffer, used, kind, number, name);
    Ok(used + records::size_of(kind))
}
