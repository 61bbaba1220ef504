// Input read whole and told from input that cannot be read; what a program says of a stream that failed.
#![tactic(auto)]

ghost use Rattle.std.specs.Io.KnownBytes.{IsAtEnd};
ghost use Rattle.std.specs.Prelude.{◌≡◌, ◌<◌, IfOk, MatchResult, length};
ghost use Rattle.stdio.specs.Stdio.{ReadsInput, GivesConsumed, IsShortAtEnd};

use std::io::{self, ErrorKind, Read};
use std::process::ExitCode;
use thiserror::Error;

// The stream that failed a program.
#[derive(Debug, Drop, Error)]
pub enum Failure {
    #[error("standard input cannot be read")]
    Input,
    #[error("standard output cannot be written")]
    Output,
}

// The status of a program. What failed it is said on standard error; where that cannot be written either, the status
// alone says it.
pub fn exit_code(rt: &impl Eprint, program: &str, outcome: Result<(), Failure>) -> ExitCode
    ensures { MatchResult outcome (λ _. result ≡ ExitCode.SUCCESS) (λ _. result ≡ ExitCode.FAILURE) }
{
    match outcome {
        Ok(()) => ExitCode::SUCCESS,
        Err(failure) => {
            let _ = eprintln!(rt; "{program}: {failure}");
            ExitCode::FAILURE
        }
    }
}

// One read: how many bytes came, 0 at the end of the input. It is tried again where it is interrupted; no program waits
// for the 2^64 tries after which it would fail, but a function has to end.
fn read_from<R: Read>(reader: &mut R, part: &mut [u8]) -> io::Result<usize>
    ensures within { ReadsInput part.new result }
    ensures bytes { GivesConsumed (R.remaining reader.old) (R.remaining reader.new) part.new result }
    ensures end { IfOk result (λ n. n ≡ 0 → 0 < length part.new → IsAtEnd (R.remaining reader.new)) }
{
    for _ in 0..u64::MAX {
        match reader.read(part) {
            Err(e) if e.kind() == ErrorKind::Interrupted => {}
            answer => return answer,
        }
    }
    Err(ErrorKind::Interrupted.into())
}

// Reads until the buffer is full or the input ends: how many bytes came. A read that fails is not taken for the end.
// Of std's own, `read_exact` says nothing of how many came, and `read_to_end` wants a heap.
#[tactic(auto, using(crate::proofs::Reading::reads_on))]
pub fn read_all<R: Read>(reader: &mut R, buf: &mut [u8]) -> io::Result<usize>
    ensures within { ReadsInput buf.new result }
    ensures bytes { GivesConsumed (R.remaining reader.old) (R.remaining reader.new) buf.new result }
    ensures end { IsShortAtEnd (R.remaining reader.new) buf.new result }
{
    let mut filled = 0;
    while filled < buf.len() {
        let n = read_from(reader, &mut buf[filled..])?;
        if n == 0 {
            return Ok(filled);
        }
        filled += n;
    }
    Ok(filled)
}
