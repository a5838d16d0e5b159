// The answer to a line, and the total.
ghost use Rattle.std.specs.Prelude.{◌≡◌, true, ◌-◌};
ghost use Rattle.number.specs.Limits.{in_range};
ghost use Rattle.desk.specs.Cue.{cue_answered, cue_rule};
ghost use Rattle.buffer.specs.Buffer.{grown};
ghost use Rattle.answers.specs.Text.{ok_text, cue_text, answer_text, total_text};
ghost use Rattle.answers.specs.Inner.{writable, Answered};

use desk::{Cue, CueFault};

// How many lines were answered and how many of them are good, how many bytes of an unended line are held, and how many
// bytes of answers there are. A counter stays at its greatest number.
#[derive(Clone, Copy)]
pub struct State {
    pub lines: u64,
    pub ok: u64,
    pub held: usize,
    pub out: usize,
}

fn put_ok(out: &mut [u8], n: usize, cue: Cue) -> usize
    requires { in_range cue.gain ≡ true }
    ensures { (result, out.new) ≡ grown out.old n (ok_text cue) }
{
    let n = buffer::append_both(out, n, b" ok ", cue.microphone as u64);
    let n = buffer::append_both(out, n, b" ", cue.loudspeaker as u64);
    let n = buffer::append(out, n, b" ");
    buffer::append_value(out, n, cue.gain)
}

fn put_cue(out: &mut [u8], n: usize, cue: Result<Cue, CueFault>) -> usize
    requires { writable (cue_answered cue) ≡ true }
    ensures { (result, out.new) ≡ grown out.old n (cue_text (cue_answered cue)) }
{
    match cue {
        Ok(c) => put_ok(out, n, c),
        Err(f) => buffer::append_both(out, n, b" refused ", u64::from(u8::from(f.refusal))),
    }
}

fn put_answer(out: &mut [u8], n: usize, number: u64, cue: Result<Cue, CueFault>) -> usize
    requires { writable (cue_answered cue) ≡ true }
    ensures { (result, out.new) ≡ grown out.old n (answer_text number (cue_answered cue)) }
{
    let n = buffer::append_number(out, n, number);
    let n = put_cue(out, n, cue);
    buffer::append(out, n, b"\n")
}

// Answers a whole line.
pub fn answer(line: &[u8], out: &mut [u8], s: State) -> State
    ensures { Answered s out.old (cue_rule line.now 64 128) result out.new }
{
    let cue = desk::read_cue(line, Cue::MICROPHONES_MAX, Cue::LOUDSPEAKERS_MAX);
    let lines = s.lines.saturating_add(1);
    let n = put_answer(out, s.out, lines, cue);
    State {
        lines,
        ok: s.ok.saturating_add(u64::from(cue.is_ok())),
        held: 0,
        out: n,
    }
}

pub fn put_total(out: &mut [u8], n: usize, lines: u64, ok: u64) -> usize
    ensures { (result, out.new) ≡ grown out.old n (total_text lines ok (lines - ok)) }
{
    let n = buffer::append_both(out, n, b"total ", lines);
    let n = buffer::append_both(out, n, b" ok ", ok);
    let n = buffer::append_both(out, n, b" refused ", lines.saturating_sub(ok));
    buffer::append(out, n, b"\n")
}
