// Input read into a buffer of a fixed size.
#![tactic(auto)]

ghost use Rattle.std.specs.Prelude.{◌≡◌, ◌≤◌, ◌<◌, OnOk, IfSome, length, take};
ghost use Rattle.std.specs.Io.KnownBytes.{Consumes, IsAtEnd};

use std::io::{Read, Result};

// Reads until the buffer is full, the input ends or a read fails, and returns how many bytes it put at the start, and the error: what
// was read before an error counts too. (The library's `read_exact` says nothing of the bytes then, so this is a loop over `read`.)
#[tactic(auto, using(crate::proofs::Turn::read_more))]
pub fn read_full<R: Read>(input: &mut R, buf: &mut [u8]) -> (usize, Result<()>)
    ensures within { result.0 ≤ length buf.new }
    ensures bytes { Consumes (R.remaining input.old) (R.remaining input.new) (take result.0 buf.new) }
    ensures end { OnOk result.1 (result.0 < length buf.new → IsAtEnd (R.remaining input.new)) }
    ensures front { OnOk result.1 (IfSome (R.remaining input.old) (λ all. take result.0 buf.new ≡ take (length buf.new) all)) }
{
    let mut done: usize = 0;
    while done < buf.len() {
        match input.read(&mut buf[done..]) {
            Ok(0) => break,
            Ok(n) => done += n,
            Err(e) => return (done, Err(e)),
        }
    }
    (done, Ok(()))
}
