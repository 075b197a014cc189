// Document 01, 'Received events', on a port whose numbers are in range: what an event comes to is carried out, a good byte by steps 1 to 9,
// and the signal that is reported.

#![tactic(auto)]

mod arrival;
mod edits;
pub mod flushing;
mod meaning;
mod storing;

ghost use Rattle.std.specs.Prelude.{◌≡◌, length};
ghost use Rattle.received.specs.Contract.{stopped_then, begun, Does, Reports, Tells, Announces, hung_up};
ghost use Rattle.received.specs.meaning.Meaning.{carry_of};
ghost use Rattle.port.specs.Layers.{Ready, Ranged, assembled};
ghost use Rattle.rules.specs.Received as steps;
ghost use Rattle.rules.specs.Flushing as flushing;

use arrival::Arrival;
use meaning::Meaning;
use port::Port;
use rules::{Event, Group, Outcome, Settings, Signal};
use storing::Stored;

// 2. 'IXON and IXANY: output resumes.'
fn resumes(x: Settings, stopped: bool) -> bool
    ensures { result ≡ stopped_then x stopped }
{
    stopped && !(x.ixon && x.ixany)
}

// step 2; and 'literal next' is cleared by every good byte that does not set it
fn begins(p: Port) -> Port
    ensures { result ≡ begun p }
{
    let stopped = resumes(p.settings, p.output.stopped);
    Port {
        input: p.input.with_literal(false),
        output: p.output.stop(stopped),
        ..p
    }
}

// what a good byte means is carried out
fn carries(p: Port, bytes: &mut [u8], marks: &mut [u8], out: &mut [u8], meaning: Meaning) -> Port
    requires { Ready p bytes.old marks.old out.old }
    ensures { Does p bytes.old marks.old out.old (carry_of meaning) result bytes.new marks.new out.new }
{
    let n = bytes.len();
    match meaning {
        Meaning::LiteralNext => flushing::sets_literal(p),
        Meaning::Signals(_, b) => flushing::signals(p, n, out, b),
        Meaning::Stops => flushing::stopped_to(p, true),
        Meaning::Starts => flushing::stopped_to(p, false),
        Meaning::Drops => p,
        Meaning::Edits(kind, b) => edits::edit(p, bytes, marks, out, kind, b),
        Meaning::Ends(b) => storing::stores(p, bytes, marks, out, Stored::Delimiter(b)),
        Meaning::Marks => storing::stores(p, bytes, marks, out, Stored::Mark),
        Meaning::Stores(b) => storing::stores(p, bytes, marks, out, Stored::Byte(b)),
    }
}

// The port after an event, and the signal that is reported, or none.
#[derive(Clone, Copy)]
pub struct Reported {
    pub port: Port,
    pub outcome: Outcome,
}

// what is reported of a meaning
fn tells(meaning: Meaning, foreground: Option<Group>) -> Outcome
    ensures { Tells meaning foreground result }
{
    match meaning {
        Meaning::Signals(signal, _) => jobs::reported(signal, foreground),
        _ => Outcome::Ok,
    }
}

// a good byte, steps 1 to 9
fn good(p: Port, bytes: &mut [u8], marks: &mut [u8], out: &mut [u8], b: u8) -> Reported
    requires { Ready p bytes.old marks.old out.old }
    ensures { Reports p bytes.old marks.old out.old (λ z s. steps.good z s b) result bytes.new marks.new out.new }
{
    let x = p.settings;
    let meaning = meaning::means(x, p.input.literal, meaning::stripped(x, b));
    let outcome = tells(meaning, p.foreground);
    let port = carries(begins(p), bytes, marks, out, meaning);
    Reported { port, outcome }
}

// no signal is reported
fn quiet(p: Port) -> Reported
    ensures { result ≡ record { port = p; outcome = Outcome.Ok } }
{
    Reported {
        port: p,
        outcome: Outcome::Ok,
    }
}

// a signal goes to the foreground group, HUP to the controlling process
fn reports(p: Port, signal: Signal, foreground: Option<Group>) -> Reported
    ensures { result ≡ record { port = p; outcome = steps.reported signal foreground } }
{
    Reported {
        port: p,
        outcome: jobs::reported(signal, foreground),
    }
}

// 'flush both and INT'
fn interrupts(p: Port, n: usize, out: &[u8]) -> Reported
    requires { Ranged p n (length out.now) }
    ensures { Announces p n out.now (λ s. (flushing.flush_both s, steps.reported Signal.Int s.foreground)) result }
{
    reports(flushing::flush_both(p, n, out), Signal::Int, p.foreground)
}

// 'each tenth of a second lowers it by one'
fn ticks(p: Port) -> Port
    ensures { result ≡ assembled p p.input p.output (steps.lowered p.waiting) }
{
    Port {
        waiting: waiting::lowered(p.waiting),
        ..p
    }
}

// 'the port is hung up'
fn hung_up(p: Port) -> Port
    ensures { result ≡ hung_up p }
{
    Port { hung: true, ..p }
}

// 'both queues are flushed, the port is hung up, HUP goes to the controlling process'
fn hangs_up(p: Port, n: usize, out: &[u8]) -> Reported
    requires { Ranged p n (length out.now) }
    ensures { Announces p n out.now (λ s. (steps.hung_up (flushing.flush_both s), steps.reported Signal.Hup s.foreground)) result }
{
    let flushed = flushing::flush_both(p, n, out);
    reports(hung_up(flushed), Signal::Hup, p.foreground)
}

// what an event comes to is carried out
pub fn received(p: Port, bytes: &mut [u8], marks: &mut [u8], out: &mut [u8], e: Event) -> Reported
    requires { Ready p bytes.old marks.old out.old }
    ensures { Reports p bytes.old marks.old out.old (λ z s. steps.received z s e) result bytes.new marks.new out.new }
{
    match arrival::arrives(p.settings, p.hung, e) {
        Arrival::Nothing => quiet(p),
        Arrival::Good(b) => good(p, bytes, marks, out, b),
        Arrival::Silent(unit) => quiet(storing::stores(p, bytes, marks, out, Stored::Silent(unit))),
        Arrival::Interrupt => interrupts(p, bytes.len(), out),
        Arrival::Tick => quiet(ticks(p)),
        Arrival::Hangup => hangs_up(p, bytes.len(), out),
    }
}
