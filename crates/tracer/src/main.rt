// Document 01, 'The trace program': records from standard input, a line each to standard output as soon as the record is complete.
// What is written is decided in `trace::stream`.

#![tactic(auto)]

ghost use Rattle.std.specs.Prelude.{IfOk};
ghost use Rattle.trace.specs.stream.Pieces.{Passes};

use port::Port;
use std::io::Read;
use std::process::ExitCode;
use std::{fmt, io};
use trace::stream;
use trace::stream::Stream;

// A piece of the input is fed, and each line written: the stream after it.
fn pass<R: Print>(
    rt: &R,
    mut stream: Stream,
    bytes: &mut [u8],
    marks: &mut [u8],
    out: &mut [u8],
    kept: &mut [u8; Stream::KEPT],
    piece: &[u8],
) -> io::Result<Stream>
    ensures { IfOk result (λ r. Passes stream bytes.old marks.old out.old kept.old piece.now r bytes.new marks.new out.new kept.new) }
{
    let mut line = [0u8; Stream::LINE];
    let mut rest = piece;
    while !rest.is_empty() {
        let fed = stream::feed(stream, bytes, marks, out, kept, rest, &mut line);
        rt.write_all(&line[..fed.length])?;
        stream = fed.stream;
        rest = &rest[fed.used..];
    }
    Ok(stream)
}

// as many bytes as are asked for at once
const BUFFER: usize = 65536;

// What failed, and why.
#[derive(Drop)]
enum Failure {
    Read(io::Error),
    Write(io::Error),
}

impl fmt::Display for Failure {
    fn fmt<W: fmt::Write>(&self, f: &mut fmt::Formatter<W>) -> fmt::Result {
        match self {
            Failure::Read(error) => write!(f, "read: {error}"),
            Failure::Write(error) => write!(f, "write: {error}"),
        }
    }
}

// Pieces of the input are passed until all is done or the input at its end, and the last line is written; or it says what failed.
// A proved loop has to end, and nothing says that the input does: the turns are counted up to a number that no run reaches.
fn run(rt: &HostRuntime) -> Result<(), Failure> {
    let mut bytes = [0u8; Port::INPUT];
    let mut marks = [0u8; Port::INPUT];
    let mut out = [0u8; Port::OUTPUT];
    let mut kept = [0u8; Stream::KEPT];
    let mut buf = [0u8; BUFFER];
    let mut stream = Stream::start();
    let mut input = rt.stdin();
    for _ in 0..u64::MAX {
        if stream.done {
            break;
        }
        let n = input.read(&mut buf).map_err(Failure::Read)?;
        if n == 0 {
            break;
        }
        stream = pass(
            rt,
            stream,
            &mut bytes,
            &mut marks,
            &mut out,
            &mut kept,
            &buf[..n],
        )
        .map_err(Failure::Write)?;
    }
    let mut line = [0u8; Stream::LINE];
    let n = stream::finish(stream, &kept, &mut line);
    rt.write_all(&line[..n]).map_err(Failure::Write)
}

// What failed and why goes to standard error.
fn main(rt: HostRuntime) -> ExitCode {
    match run(&rt) {
        Ok(()) => ExitCode::SUCCESS,
        Err(failure) => {
            let _ = eprintln!(rt; "{failure}");
            ExitCode::FAILURE
        }
    }
}
