// Answers, line by line, however the input is cut into pieces. What is held, the room for answers and the state are lent
// apart, as `fed_by` has them: a struct would be taken apart in each contract.
ghost use Rattle.std.specs.Prelude.{◌≡◌, take};
ghost use Rattle.buffer.specs.Buffer.{grown};
ghost use Rattle.answers.specs.Pieces.{end_text, fed_by};
ghost use Rattle.answers.specs.Inner.{Ready, Taken, Fed};

use super::lines;
use lines::State;
use strlib::StrPtr;

// Takes a line, or the start of one. A line is held up to 65,537 bytes, which is enough to refuse it.
fn take_line(part: &[u8], full: bool, hold: &mut [u8], out: &mut [u8], s: State) -> State
    requires { Ready hold.old out.old s }
    ensures { Taken s hold.old out.old full part.now result hold.new out.new }
{
    if full {
        if s.held == 0 {
            return lines::answer(part, out, s);
        }
        let held = buffer::append(hold, s.held, part);
        return lines::answer(strlib::text(hold, StrPtr::full(0, held)), out, s);
    }
    State {
        held: buffer::append(hold, s.held, part),
        ..s
    }
}

// Goes through a piece of the input, line by line, and by places, as `Walked` says how far it came: `split_inclusive`
// has none, and leaves each line its end, which would have to be looked for and taken off again.
fn walk(part: &[u8], hold: &mut [u8], out: &mut [u8], s: State) -> State
    requires { Ready hold.old out.old s }
    ensures { Fed s hold.old out.old part.now result hold.new out.new }
{
    let mut t = s;
    let mut at = 0;
    while at < part.len() {
        let line = words::next_line(part, at);
        let text = strlib::text(part, line.pointer());
        t = take_line(text, line.to < line.next, hold, out, t);
        at = line.next;
    }
    t
}

// Answers the lines that end in a piece of the input, and holds what is left of it.
pub fn feed(part: &[u8], hold: &mut [u8; super::HOLD], out: &mut [u8], s: State) -> State
    ensures { (result, (hold.new, out.new)) ≡ fed_by part.now s hold.old out.old }
{
    let t = State {
        held: s.held.min(hold.len()),
        out: 0,
        ..s
    };
    walk(part, hold, out, t)
}

// Answers a last line that has no end, and gives the total.
pub fn finish(hold: &[u8; super::HOLD], out: &mut [u8], s: State) -> usize
    ensures { (result, out.new) ≡ grown out.old 0 (end_text s.lines s.ok (take s.held hold.now)) }
{
    if 0 < s.held {
        let t = State {
            held: 0,
            out: 0,
            ..s
        };
        let t = lines::answer(strlib::text(hold, StrPtr::full(0, s.held)), out, t);
        return lines::put_total(out, t.out, t.lines, t.ok);
    }
    lines::put_total(out, 0, s.lines, s.ok)
}
