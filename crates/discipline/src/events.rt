// Document 01, 'Received events', for every value of port and slices: one call that takes the event and one for each event; and a flush by its
// choice.
ghost use Rattle.std.specs.Prelude.{◌≡◌, []};
ghost use Rattle.rules.specs.Step.{bytes_in};
ghost use Rattle.port.specs.Calls.{step_of, Asks};
ghost use Rattle.discipline.specs.events.Contract.{Chooses, Receives};

use port::{Answered, Port};
use received::flushing;
use rules::{Call, Event, Outcome, Refusal};

// the count of an event: a byte is taken, or none comes
fn bytes_in(e: Event) -> usize
    ensures { result ≡ bytes_in e }
{
    match e {
        Event::Good(_) | Event::Parity(_) | Event::Framing(_) => 1,
        Event::Break | Event::Tick | Event::Hangup => 0,
    }
}

// 'Received events', by the event
pub fn receive(p: Port, bytes: &mut [u8], marks: &mut [u8], out: &mut [u8], e: Event) -> Answered
    ensures { Receives p bytes.old marks.old out.old e result bytes.new marks.new out.new }
{
    let n = bytes.len().min(marks.len());
    let ranged = p.in_range(n, out.len());
    let reported = received::received(ranged, &mut bytes[..n], &mut marks[..n], out, e);
    port::says(reported.port, reported.outcome, bytes_in(e))
}

pub fn good(p: Port, bytes: &mut [u8], marks: &mut [u8], out: &mut [u8], b: u8) -> Answered
    ensures { Receives p bytes.old marks.old out.old (Event.Good b) result bytes.new marks.new out.new }
{
    receive(p, bytes, marks, out, Event::Good(b))
}

pub fn parity_error(p: Port, bytes: &mut [u8], marks: &mut [u8], out: &mut [u8], b: u8) -> Answered
    ensures { Receives p bytes.old marks.old out.old (Event.Parity b) result bytes.new marks.new out.new }
{
    receive(p, bytes, marks, out, Event::Parity(b))
}

pub fn framing_error(p: Port, bytes: &mut [u8], marks: &mut [u8], out: &mut [u8], b: u8) -> Answered
    ensures { Receives p bytes.old marks.old out.old (Event.Framing b) result bytes.new marks.new out.new }
{
    receive(p, bytes, marks, out, Event::Framing(b))
}

pub fn break_condition(p: Port, bytes: &mut [u8], marks: &mut [u8], out: &mut [u8]) -> Answered
    ensures { Receives p bytes.old marks.old out.old Event.Break result bytes.new marks.new out.new }
{
    receive(p, bytes, marks, out, Event::Break)
}

pub fn tick(p: Port, bytes: &mut [u8], marks: &mut [u8], out: &mut [u8]) -> Answered
    ensures { Receives p bytes.old marks.old out.old Event.Tick result bytes.new marks.new out.new }
{
    receive(p, bytes, marks, out, Event::Tick)
}

pub fn hangup(p: Port, bytes: &mut [u8], marks: &mut [u8], out: &mut [u8]) -> Answered
    ensures { Receives p bytes.old marks.old out.old Event.Hangup result bytes.new marks.new out.new }
{
    receive(p, bytes, marks, out, Event::Hangup)
}

// 'a flush choice': '1 input, 2 output, 3 both'
#[derive(Clone, Copy)]
enum Queues {
    Input,
    Output,
    Both,
}

impl TryFrom<u8> for Queues {
    type Error = Refusal;

    ghost try_from_gives = { Chooses };

    // Refusal 2: 'a flush choice not 1, 2 or 3'.
    fn try_from(choice: u8) -> Result<Self, Refusal> {
        match choice {
            1 => Ok(Queues::Input),
            2 => Ok(Queues::Output),
            3 => Ok(Queues::Both),
            _ => Err(Refusal::OutOfRange),
        }
    }
}

// the queues of a flush choice are flushed
pub fn flush(p: Port, bytes: &[u8], marks: &[u8], out: &[u8], choice: u8) -> Answered
    ensures { Asks p bytes.now marks.now out.now (step_of p bytes.now marks.now out.now (Call.Flush choice) []) result }
{
    let n = bytes.len().min(marks.len());
    let ranged = p.in_range(n, out.len());
    match Queues::try_from(choice) {
        Ok(Queues::Input) => port::says(flushing::flush_input(ranged, n, out), Outcome::Ok, 0),
        Ok(Queues::Output) => port::says(ranged.flush_output(out.len()), Outcome::Ok, 0),
        Ok(Queues::Both) => port::says(flushing::flush_both(ranged, n, out), Outcome::Ok, 0),
        Err(refusal) => port::refuses(p, refusal),
    }
}
