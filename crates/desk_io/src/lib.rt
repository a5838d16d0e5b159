// Reading and writing for the desk's programs. A call that a signal interrupted is made again.
#![tactic(auto)]

ghost use Rattle.std.specs.Prelude.{true, ◌≡◌, ◌≤◌, length};
ghost use Rattle.desk_io.specs.Io.{Moved};

use std::env::{Env, FillError};
use std::io::{ErrorKind, Read, Write};

// More calls than any signal can interrupt.
const TRIES: u64 = u64::MAX;

// One read, answered as C's is: −1 where it failed, 0 at the end of the input, else how many bytes it put at the front
// of buf. A number, since `turns::after_read` and program's `run_writes` are of every number that a read may answer.
pub fn read<R: Read>(from: &mut R, buf: &mut [u8]) -> isize
    ensures { Moved (length buf.old) result }
{
    for _ in 0..TRIES {
        match from.read(buf) {
            Ok(got) => return got as isize,
            Err(e) if e.kind() == ErrorKind::Interrupted => {}
            Err(_) => return -1,
        }
    }
    -1
}

// Writes all of buf, in as many calls as that takes; false where one failed or took nothing. What a call of `write`
// takes no contract can say; a text of no bytes is always written.
pub fn write<W: Write>(to: &mut W, buf: &[u8]) -> bool
    ensures { length buf.now ≡ 0 → result ≡ true }
{
    let mut done = 0;
    for _ in 0..TRIES {
        if done == buf.len() {
            break;
        }
        match to.write(&buf[done..]) {
            Ok(0) => return false,
            Ok(put) => done += put,
            Err(e) if e.kind() == ErrorKind::Interrupted => {}
            Err(_) => return false,
        }
    }
    done == buf.len()
}

// Puts the program's first argument at the front of name, and answers its length; of one that is too long what has
// room.
pub fn argument<E: Env>(env: &E, name: &mut [u8]) -> usize
    ensures { result ≤ length name.new }
{
    match env.arg(1, name) {
        Ok(n) => n,
        Err(FillError::TooLong) => name.len(),
        Err(FillError::NotPresent) => 0,
    }
}
