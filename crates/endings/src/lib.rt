// What a program of the desk was asked to read, and how its run ended.
#![tactic(auto)]

ghost use Rattle.std.specs.Prelude.{◌≡◌};
ghost use Rattle.endings.specs.Ending.{is_going, after_write, source_of};

// How a run stands: it goes on, it came to its input's end, or why it did not: it was called wrongly, its input could
// not be opened or not be read, or its output could not be written. A total that could not be written makes it
// unwritten too.
#[derive(Clone, Copy, Debug, PartialEq, Eq)]
pub enum Ending {
    Going,
    Complete,
    Misused,
    Unopened,
    Unread,
    Unwritten,
}

// What a program reads.
#[derive(Clone, Copy, Debug, PartialEq, Eq)]
pub enum Source {
    Input,
    File,
    Neither,
}

#[tactic(auto, unfolding(crate::specs::Ending::is_going))]
pub fn is_going(ending: Ending) -> bool
    ensures { result ≡ is_going ending }
{
    matches!(ending, Ending::Going)
}

// How a run stands after a write that took all its bytes, or failed.
#[tactic(auto, unfolding(crate::specs::Ending::after_write))]
pub fn after_write(done: bool, ending: Ending) -> Ending
    ensures { result ≡ after_write done ending }
{
    if done { ending } else { Ending::Unwritten }
}

// What a program with so many arguments reads, its own name among them, the first behind that being `name`.
pub fn source_of(arguments: usize, name: &[u8]) -> Source
    ensures { result ≡ source_of arguments name.now }
{
    if arguments < 2 {
        return Source::Input;
    }
    if 2 < arguments {
        return Source::Neither;
    }
    match name {
        [b'-'] => Source::Input,
        [b'-', ..] => Source::Neither,
        _ => Source::File,
    }
}
