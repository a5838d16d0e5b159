// The desk: cue lines and label lists.
ghost use Rattle.std.specs.Prelude.{◌≡◌};
ghost use Rattle.desk.specs.Cue.{cue_word_rule};
ghost use Rattle.desk.specs.Label.{read_labels_rule, find_label_rule, name_part, add_rule};
ghost use Rattle.flat.specs.Strings.{flat_with, flat_part};
ghost use Rattle.flat_finds.specs.Finds.{flat_name};
ghost use Rattle.flat.specs.Values.{flat_cue, flat_size};

use flat::{FlatCue, FlatPart, FlatSize};
use flat_finds::FlatName;

#[unsafe(no_mangle)]
pub extern "C" fn strlib_read_cue(line: &[u8], microphones: usize, loudspeakers: usize) -> FlatCue
    ensures { result ≡ flat_cue (cue_word_rule line.now microphones loudspeakers) }
{
    FlatCue::from(desk::read_cue(line, microphones, loudspeakers))
}

#[unsafe(no_mangle)]
pub extern "C" fn strlib_read_labels(list: &[u8]) -> FlatSize
    ensures { result ≡ flat_size (read_labels_rule list.now) }
{
    FlatSize::from(desk::read_labels(list))
}

#[unsafe(no_mangle)]
pub extern "C" fn strlib_find_label(list: &[u8], kind: usize, number: usize) -> FlatName
    ensures { result ≡ flat_name (find_label_rule list.now kind number) }
{
    FlatName::from(desk::find_label(list, kind, number))
}

#[unsafe(no_mangle)]
pub extern "C" fn strlib_label_name(list: &[u8], kind: usize, number: usize) -> FlatPart
    ensures { result ≡ flat_part (name_part (find_label_rule list.now kind number)) }
{
    flat_finds::name_part(desk::find_label(list, kind, number))
}

#[unsafe(no_mangle)]
pub extern "C" fn strlib_add_label(
    buffer: &mut [u8],
    used: usize,
    kind: usize,
    number: usize,
    name: &[u8],
) -> FlatSize
    ensures { (result, buffer.new) ≡ flat_with flat_size (add_rule buffer.old used kind number name.now) }
{
    FlatSize::from(desk::add_label(buffer, used, kind, number, name))
}
