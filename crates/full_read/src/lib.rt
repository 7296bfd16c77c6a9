// A reader's bytes, read into a buffer of a fixed size.
#![tactic(auto)]

ghost use Rattle.std.specs.Prelude.{IfOk, take};
ghost use Rattle.std.specs.Io.{ReadsAtMost};
ghost use Rattle.std.specs.Io.KnownBytes.{Consumes};

use std::io;
use std::io::{ErrorKind, Read};

// Reads until `space` is full or the input ends, and answers how many bytes it laid there. A read that a signal interrupts is made again.
pub fn read_full<R: Read>(input: &mut R, space: &mut [u8]) -> io::Result<usize>
    ensures counts { ReadsAtMost result space.new }
    ensures bytes { IfOk result (λ n. Consumes (R.remaining input.old) (R.remaining input.new) (take n space.new)) }
{
    let mut done = 0;
    // Counted turns: a proved loop ends, and no contract says that a read which is made again is not interrupted again.
    for _ in 0..u64::MAX {
        if done == space.len() {
            break;
        }
        match input.read(&mut space[done..]) {
            Ok(0) => break,
            Ok(n) => done += n,
            Err(e) if e.kind() == ErrorKind::Interrupted => {}
            Err(e) => return Err(e),
        }
    }
    Ok(done)
}
