// Document 01, 'The trace program': one record carried out on a port, and its line.

#![tactic(auto)]

mod gathering;
pub mod stream;

ghost use Rattle.std.specs.Prelude.{◌≡◌, ◌≤◌, length};
ghost use Rattle.trace.specs.Contract.{given_of, Carries, Records, loaded};
ghost use Rattle.trace.specs.Numbers.{most_lent};

use port::{Answered, Port};
use records::lines;
use rules::{Answer, Call, Refusal};

// No call is lent more bytes than a transmit.
const LENT: usize = records::MOST_SENT;

// The port after a record, the answer, and how many bytes were handed out into the lent buffer.
#[derive(Clone, Copy)]
pub struct Carried {
    pub port: Port,
    pub answer: Answer,
    pub given: usize,
}

// The port after a record, and the length of its line.
#[derive(Clone, Copy)]
pub struct Recorded {
    pub port: Port,
    pub length: usize,
}

// the first n bytes of the body stand first in the buffer
fn load(lent: &mut [u8], body: &[u8], n: usize)
    ensures { lent.new ≡ loaded lent.old n body.now }
{
    let k = n.min(body.len()).min(lent.len());
    lent[..k].copy_from_slice(&body[..k]);
}

// the bytes that a call hands out, of this count
fn given_of(call: Call, count: usize) -> usize
    ensures { result ≡ given_of call count }
{
    match call {
        Call::Read { .. } | Call::Transmit => count,
        _ => 0,
    }
}

// 'Unknown kinds, wrong lengths and other values are malformed': refusal 2, and the port is not called.
fn carry(
    p: Port,
    bytes: &mut [u8],
    marks: &mut [u8],
    out: &mut [u8],
    kind: usize,
    body: &[u8],
    lent: &mut [u8],
) -> Carried
    requires { most_lent ≤ length lent.old }
    ensures { Carries p bytes.old marks.old out.old kind body.now lent.old result bytes.new marks.new out.new lent.new }
{
    let Some(asked) = records::decode(kind, body) else {
        let Answered { port, answer } = port::refuses(p, Refusal::OutOfRange);
        return Carried {
            port,
            answer,
            given: 0,
        };
    };
    load(lent, body, asked.lent);
    let Answered { port, answer } = discipline::step(
        p,
        bytes,
        marks,
        out,
        asked.call,
        &mut lent[..asked.lent],
    );
    let given = given_of(asked.call, answer.count);
    Carried {
        port,
        answer,
        given,
    }
}

// 'A line each': index, kind, outcome, count, bytes given
pub fn record(
    p: Port,
    bytes: &mut [u8],
    marks: &mut [u8],
    out: &mut [u8],
    index: usize,
    kind: usize,
    body: &[u8],
    line: &mut [u8],
) -> Recorded
    ensures { Records p bytes.old marks.old out.old index kind body.now line.old result bytes.new marks.new out.new line.new }
{
    let mut lent = [0u8; LENT];
    let Carried {
        port,
        answer,
        given,
    } = carry(p, bytes, marks, out, kind, body, &mut lent);
    let length = lines::put_line(line, index, kind, answer, &lent[..given]);
    Recorded { port, length }
}
