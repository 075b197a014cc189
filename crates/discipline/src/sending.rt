// Document 01, 'Output', for every value of port and slice: the calls that write and transmit, and a write that goes on from the rest.
ghost use Rattle.std.specs.Prelude.{◌≡◌, ◌&&◌, ltb, eqb};
ghost use Rattle.discipline.specs.sending.Contract.{MovesThrough};
ghost use Rattle.port.specs.Sending as promise;

use port::{Answered, Port};
use queue::Counted;
use rules::{Outcome, Refusal};

// 'a write of one byte or more of which none could be taken'
fn nothing_taken(len: usize, count: usize) -> bool
    ensures { result ≡ (ltb 0 len && eqb count 0) }
{
    len > 0 && count == 0
}

// 'A write takes bytes until one's whole expansion does not fit, then stops there; its count is the bytes taken.'
pub fn write(p: Port, out: &mut [u8], src: &[u8]) -> Answered
    ensures { promise.result result out.new src.now ≡ promise.after_write p out.old src.now }
{
    if p.hung {
        return port::refuses(p, Refusal::HungUp);
    }
    let Counted { rest, count } = p.output.write(p.settings, out, src);
    if nothing_taken(src.len(), count) {
        return port::refuses(p, Refusal::Nothing);
    }
    port::says(p.with_output(rest), Outcome::Ok, count)
}

// 'Transmit hands out the oldest queued bytes, none while stopped.'
pub fn transmit(p: Port, out: &[u8], dst: &mut [u8]) -> Answered
    ensures { promise.result result out.now dst.new ≡ promise.after_transmit p out.now dst.old }
{
    let Counted { rest, count } = p.output.transmit(out, dst);
    port::says(p.with_output(rest), Outcome::Ok, count)
}

// How many bytes of a buffer were written, and how many were handed out meanwhile.
#[derive(Clone, Copy)]
pub struct Moved {
    pub port: Port,
    pub written: usize,
    pub given: usize,
}

fn taken(answered: Answered) -> usize
    ensures { result ≡ answered.answer.count }
{
    answered.answer.count
}

// 'Later writes go on from the rest': as much of src as the port takes, then what transmit gives into dst, then the rest.
pub fn write_through(p: Port, out: &mut [u8], src: &[u8], dst: &mut [u8]) -> Moved
    ensures { MovesThrough p out.old src.now dst.old result out.new dst.new }
{
    let first = write(p, out, src);
    let n = taken(first);
    let sent = transmit(first.port, out, dst);
    let rest = write(sent.port, out, &src[n..]);
    Moved {
        port: rest.port,
        written: n + taken(rest),
        given: taken(sent),
    }
}
