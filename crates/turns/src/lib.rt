// A run of the program, turn by turn: what a read answered is taken in here, and so is whether a write took all its
// bytes.
#![tactic(auto)]

ghost use Rattle.std.specs.Prelude.{◌≡◌};
ghost use Rattle.turns.specs.Turn.{stage, after_read, wrote, begun};

use answers::State;
use endings::Ending;

// The state, and how the run stands.
#[derive(Clone, Copy)]
pub struct Run {
    pub state: State,
    pub ending: Ending,
}

// The heading is to be written.
pub fn begin(out: &mut [u8]) -> Run
    ensures { (result, out.new) ≡ begun out.old }
{
    let n = buffer::append(out, 0, b"cue answers\n");
    let state = State {
        lines: 0,
        ok: 0,
        held: 0,
        out: n,
    };
    Run {
        state,
        ending: Ending::Going,
    }
}

// Goes on with what a read answered, the bytes that were lent to it being `piece`; the answers are to be written.
pub fn after_read(
    got: isize,
    piece: &[u8],
    hold: &mut [u8; answers::HOLD],
    out: &mut [u8],
    run: Run,
) -> Run
    ensures { stage result hold.new out.new ≡ after_read got piece.now run hold.old out.old }
{
    let s = run.state;
    if !endings::is_going(run.ending) {
        return Run {
            state: State { out: 0, ..s },
            ..run
        };
    }
    if got < 0 {
        return Run {
            state: State { out: 0, ..s },
            ending: Ending::Unread,
        };
    }
    if got == 0 {
        let n = answers::finish(hold, out, s);
        return Run {
            state: State { out: n, ..s },
            ending: Ending::Complete,
        };
    }
    let n = io::count(got, piece);
    let state = answers::feed(&piece[..n], hold, out, s);
    Run {
        state,
        ending: Ending::Going,
    }
}

// Goes on with whether a write took all its bytes.
pub fn after_write(done: bool, run: Run) -> Run
    ensures { result ≡ wrote done run }
{
    Run {
        ending: endings::after_write(done, run.ending),
        ..run
    }
}
