// Looking up a label by kind and number.
ghost use Rattle.std.specs.Prelude.{◌≡◌};
ghost use Rattle.cutting.specs.Part.{IsPart};
ghost use Rattle.desk.specs.Label.{name_of, place_sought, label_placed, find_label_rule, name_part};
ghost use Rattle.desk.specs.LabelInner.{Counted};

use super::read;
use records::Fault;

// Where a trimmed name lies in the list.
#[derive(Clone, Copy)]
pub struct LabelPlace {
    pub place: usize,
    pub length: usize,
}

// The name of record k, counted from 1; none for 0.
fn name_of(list: &[u8], k: usize) -> Option<LabelPlace>
    requires { Counted list.now k }
    ensures { place_sought result ≡ name_of list.now k }
{
    if k == 0 {
        return None;
    }
    let rest = records::record_at(list, k - 1);
    let name = cutting::trimmed_part(records::name_in(rest));
    Some(LabelPlace {
        place: list.len() - rest.len() + records::HEAD,
        length: name.len(),
    })
}

pub fn find_label(list: &[u8], kind: usize, number: usize) -> Result<Option<LabelPlace>, Fault>
    ensures { label_placed result ≡ find_label_rule list.now kind number }
{
    read::read_labels(list)?;
    records::check_key(kind, number).map_err(|refusal| Fault {
        refusal,
        offset: list.len(),
    })?;
    Ok(name_of(list, records::find_record(list, kind, number)))
}

// The trimmed name itself; on a refusal or no record the empty part at the list's front.
pub fn label_name(list: &[u8], kind: usize, number: usize) -> &[u8]
    ensures { IsPart result list.entry (name_part (find_label_rule list.now kind number)) }
{
    match find_label(list, kind, number) {
        Ok(Some(name)) => cutting::counted_part(list, name.place + 1, name.length),
        Ok(None) => cutting::counted_part(list, 1, 0),
        Err(_) => cutting::counted_part(list, 1, 0),
    }
}
