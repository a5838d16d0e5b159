// Reads cue lines for a matrix of 64 by 128 from a file or from standard input, and writes an answer to each, and the
// total.
#![tactic(auto)]

ghost use Rattle.std.specs.Prelude.{length};
ghost use Rattle.cue_answers.specs.Loop.{Room, Tried, Turned, AllTurns, Answering, OfFile};

use endings::{Ending, Source};
use std::env::{Env, FillError};
use std::fs;
use std::io::{Read, Write};
use std::rt::Files;
use strlib::StrPtr;
use turns::Run;

// Bytes that are read at a time, and room for the answers to them, 36 bytes for each. Together with the line that is
// held they take some 180,000 bytes of stack.
const PIECE: usize = 3072;

const OUT: usize = 36 * PIECE;

// Writes what a run is told to write.
fn write_told<W: Write>(to: &mut W, out: &[u8], run: Run) -> Run
    ensures { Tried run result }
{
    let state = run.state;
    let done = desk_io::write(to, strlib::text(out, StrPtr::full(0, state.out)));
    turns::after_write(done, run)
}

// Reads once, and writes the answers.
fn turn<R: Read, W: Write>(
    from: &mut R,
    to: &mut W,
    piece: &mut [u8],
    hold: &mut [u8; answers::HOLD],
    out: &mut [u8],
    run: Run,
) -> Run
    requires { Room piece.old out.old }
    ensures { Turned run piece.new hold.old out.old result hold.new out.new }
{
    let got = desk_io::read(from, piece);
    let t = turns::after_read(got, piece, hold, out, run);
    write_told(to, out, t)
}

// Turn after turn, until the run has ended; no input takes so many.
fn all_turns<R: Read, W: Write>(
    from: &mut R,
    to: &mut W,
    piece: &mut [u8],
    hold: &mut [u8; answers::HOLD],
    out: &mut [u8],
    run: Run,
) -> Run
    requires { Room piece.old out.old }
    ensures { AllTurns run (length piece.old) hold.old out.old result hold.new out.new }
{
    let mut r = run;
    for _ in 0..u64::MAX {
        if !endings::is_going(r.ending) {
            return r;
        }
        r = turn(from, to, piece, hold, out, r);
    }
    r
}

// Answers a whole input, and says how the run ended.
fn answer_all<R: Read, W: Write>(from: &mut R, to: &mut W, out: &mut [u8; OUT]) -> Ending
    ensures { Answering out.old result out.new }
{
    let mut piece = [0u8; PIECE];
    let mut hold = [0u8; answers::HOLD];
    let run = turns::begin(out);
    let run = write_told(to, out, run);
    let run = all_turns(from, to, &mut piece, &mut hold, out, run);
    run.ending
}

// The same of a file. A name that is no text in UTF-8 names none that can be opened.
fn answer_file<F: Files, W: Write>(
    files: &F,
    to: &mut W,
    name: &[u8],
    out: &mut [u8; OUT],
) -> Ending
    ensures { OfFile out.old result out.new }
{
    let Ok(name) = str::from_utf8(name) else {
        return Ending::Unopened;
    };
    let Ok(mut file) = fs::File::open(files, name) else {
        return Ending::Unopened;
    };
    answer_all(&mut file, to, out)
}

// Says on standard error why a run is not complete; whether that could be written nobody is left to be told.
fn complain<W: Write>(
    to: &mut W,
    out: &mut [u8; OUT],
    source: Source,
    name: &[u8],
    ending: Ending,
) {
    let n = complaints::complaint(out, b"cue_answers", source, name, ending);
    desk_io::write(to, strlib::text(out, StrPtr::full(0, n)));
}

// Whether there is an argument of this number, 0 being the program's own name.
fn is_given<E: Env>(env: &E, i: usize) -> bool {
    !matches!(env.arg(i, &mut []), Err(FillError::NotPresent))
}

// How many arguments there are, the program's own name among them; 3 stands for more too.
fn argument_count<E: Env>(env: &E) -> usize {
    if !is_given(env, 1) {
        1
    } else if !is_given(env, 2) {
        2
    } else {
        3
    }
}

fn main(rt: HostRuntime) {
    let mut out = [0u8; OUT];
    let mut name = io::buffer();
    // an argument too long for the buffer fills it, and no file has a name that long
    let n = desk_io::argument(&rt, &mut name);
    let named = StrPtr::full(0, n);
    let source = endings::source_of(argument_count(&rt), strlib::text(&name, named));
    let ending = match source {
        Source::Input => answer_all(&mut rt.stdin(), &mut rt.stdout(), &mut out),
        Source::File => answer_file(&rt, &mut rt.stdout(), strlib::text(&name, named), &mut out),
        Source::Neither => Ending::Misused,
    };
    complaints::show(&mut name);
    complain(
        &mut rt.stderr(),
        &mut out,
        source,
        strlib::text(&name, named),
        ending,
    );
}
