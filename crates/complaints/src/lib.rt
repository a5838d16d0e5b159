// What a program of the desk says on standard error of a run that is not complete.
#![tactic(auto)]

ghost use Rattle.std.specs.Prelude.{◌++◌, ◌≡◌, map};
ghost use Rattle.strlib.specs.Quoted.{bytes};
ghost use Rattle.buffer.specs.Buffer.{grown};
ghost use Rattle.complaints.specs.Complaint.{source_text, failure_text, unwritten, usage_text, complaint_text};
ghost use Rattle.complaints.specs.Complaint.{shown as Complaint·shown};

use endings::{Ending, Source};

// A byte as it is shown in a line.
#[tactic(auto, unfolding(crate::specs::Complaint::shown))]
fn visible(c: u8) -> u8
    ensures { result ≡ Complaint·shown c }
{
    if c.is_ascii_control() { b'?' } else { c }
}

// Makes a name fit to stand in a line.
pub fn show(name: &mut [u8])
    ensures { name.new ≡ map Complaint·shown name.old }
{
    for byte in name.iter_mut() {
        *byte = visible(*byte);
    }
}

fn put_source(out: &mut [u8], n: usize, source: Source, name: &[u8]) -> usize
    ensures { (result, out.new) ≡ grown out.old n (source_text source name.now) }
{
    match source {
        Source::Input => buffer::append(out, n, b"standard input"),
        Source::Neither => buffer::append(out, n, b""),
        Source::File => {
            let n = buffer::append(out, n, b"'");
            let n = buffer::append(out, n, name);
            buffer::append(out, n, b"'")
        }
    }
}

// Puts the beginning of a line of something that could not be done.
fn put_start(out: &mut [u8], program: &[u8]) -> usize
    ensures { (result, out.new) ≡ grown out.old 0 (program.now ++ bytes ": incomplete: ") }
{
    let n = buffer::append(out, 0, program);
    buffer::append(out, n, b": incomplete: ")
}

fn put_failure(out: &mut [u8], program: &[u8], source: Source, name: &[u8], what: &[u8]) -> usize
    ensures { (result, out.new) ≡ grown out.old 0 (failure_text program.now (source_text source name.now) what.now) }
{
    let n = put_start(out, program);
    let n = put_source(out, n, source, name);
    buffer::append(out, n, what)
}

fn put_unwritten(out: &mut [u8], program: &[u8]) -> usize
    ensures { (result, out.new) ≡ grown out.old 0 (failure_text program.now (bytes "standard output") unwritten) }
{
    let n = put_start(out, program);
    let n = buffer::append(out, n, b"standard output");
    buffer::append(out, n, b" could not be written\n")
}

fn put_usage(out: &mut [u8], program: &[u8]) -> usize
    ensures { (result, out.new) ≡ grown out.old 0 (usage_text program.now) }
{
    let n = buffer::append(out, 0, b"usage: ");
    let n = buffer::append(out, n, program);
    buffer::append(out, n, b" [FILE]\n")
}

// Puts the line that a program writes on standard error, by how its run ended: of a complete run nothing.
pub fn complaint(
    out: &mut [u8],
    program: &[u8],
    source: Source,
    name: &[u8],
    ending: Ending,
) -> usize
    ensures { (result, out.new) ≡ grown out.old 0 (complaint_text program.now source name.now ending) }
{
    match ending {
        Ending::Going => put_failure(out, program, source, name, b" could not be read\n"),
        Ending::Complete => buffer::append(out, 0, b""),
        Ending::Misused => put_usage(out, program),
        Ending::Unopened => put_failure(out, program, source, name, b" could not be opened\n"),
        Ending::Unread => put_failure(out, program, source, name, b" could not be read\n"),
        Ending::Unwritten => put_unwritten(out, program),
    }
}
