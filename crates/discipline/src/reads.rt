// Document 01, 'Reads', for every value of port and slices: what a read finds it takes, or it waits; and cancel. A read is lent no slice of the
// output.
ghost use Rattle.std.specs.Prelude.{◌≡◌, []};
ghost use Rattle.port.specs.Layers.{assembled};
ghost use Rattle.discipline.specs.reads.Contract.{ReadsBy, done, «finds», Reads};
ghost use Rattle.port.specs.Calls.{step_of, cancelled};
ghost use Rattle.rules.specs.Reads as rule;

use input::{Input, Places, reading};
use port::{Answered, Port};
use queue::Counted;
use rules::{Call, Outcome, Refusal, Settings, Waiting};

// the port with another input and another waiting read
fn with_read(p: Port, input: Input, waiting: Waiting) -> Port
    ensures { result ≡ assembled p input p.output waiting }
{
    port::assemble(p, input, p.output, waiting)
}

// The read is done: no read waits any more.
fn finish(p: Port, places: &Places, dst: &mut [u8]) -> Answered
    ensures { ReadsBy done p places.now.input places.now.bytes.now places.now.marks.now dst.old result dst.new }
{
    let Counted { rest, count } = if p.settings.icanon {
        reading::read_line(places.input, places.bytes, places.marks, dst)
    } else {
        reading::read_bytes(places.input, places.bytes, dst)
    };
    port::says(with_read(p, rest, Waiting::Idle), Outcome::Ok, count)
}

// A read of n bytes finds what it asks for where so many places are finished.
fn finds(x: Settings, finished: usize, w: Waiting, n: usize) -> bool
    ensures { result ≡ «finds» x finished w n }
{
    if x.icanon {
        finished > 0
    } else {
        waiting::enough(x, n, finished) || waiting::expired(w)
    }
}

// 'Non-blocking takes that at once .. or gives refusal 3 if no byte is stored; canonical, if no line is finished. Otherwise the
// answer is "wait".'
fn ruled(p: Port, places: &Places, dst: &mut [u8], nonblocking: bool) -> Answered
    ensures { ReadsBy (λ s n. rule.ruled s nonblocking n) p places.now.input places.now.bytes.now places.now.marks.now dst.old result dst.new }
{
    let n = dst.len();
    if nonblocking {
        if places.input.ready == 0 {
            port::refuses(p, Refusal::Nothing)
        } else {
            finish(p, places, dst)
        }
    } else if finds(p.settings, places.input.ready, p.waiting, n) {
        finish(p, places, dst)
    } else {
        let begun = waiting::begins(p.settings, places.input.ready, n);
        let waits = waiting::waits(begun, p.waiting);
        port::says(with_read(p, places.input, waits), Outcome::Wait, 0)
    }
}

// 'A read on a hung-up port answers 0 bytes and ends any waiting read; otherwise 4, then length 0 (answers 0, takes nothing),
// then the rules below.'
fn ordered(p: Port, places: &Places, dst: &mut [u8], nonblocking: bool) -> Answered
    ensures { ReadsBy (λ s n. rule.read s nonblocking n) p places.now.input places.now.bytes.now places.now.marks.now dst.old result dst.new }
{
    let n = dst.len();
    if p.hung {
        port::says(with_read(p, places.input, Waiting::Idle), Outcome::Ok, 0)
    } else if waiting::clashes(p.waiting, nonblocking, n) {
        port::refuses(p, Refusal::ReadWaits)
    } else if n == 0 {
        port::says(with_read(p, places.input, p.waiting), Outcome::Ok, 0)
    } else {
        ruled(p, places, dst, nonblocking)
    }
}

// as many bytes as dst has
pub fn read(p: Port, bytes: &[u8], marks: &[u8], dst: &mut [u8], nonblocking: bool) -> Answered
    ensures { Reads p bytes.now marks.now dst.old nonblocking result dst.new }
{
    let n = bytes.len().min(marks.len());
    let places = Places {
        input: p.input.fit(n),
        bytes: &bytes[..n],
        marks: &marks[..n],
    };
    ordered(p, &places, dst, nonblocking)
}

// 'Cancel ends a waiting read and moves nothing.'
pub fn cancel(p: Port) -> Answered
    ensures { result ≡ cancelled p (step_of p [] [] [] Call.Cancel []) }
{
    port::says(with_read(p, p.input, Waiting::Idle), Outcome::Ok, 0)
}
