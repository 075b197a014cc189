// Document 01, 'Received events': what an event comes to, by the settings.
ghost use Rattle.std.specs.Prelude.{◌≡◌, cond};
ghost use Rattle.received.specs.arrival.Arrival.{broken_of, parity_of, break_of, hangup_of, arrival_of};

use input::Unit;
use rules::{Event, Settings};

// nothing happens | a good byte | a unit that is stored without echo | both queues are flushed and INT is signalled | a tick |
// a hangup
#[derive(Clone, Copy)]
pub(crate) enum Arrival {
    Nothing,
    Good(u8),
    Silent(Unit),
    Interrupt,
    Tick,
    Hangup,
}

// 'PARMRK stores 255,0,X; else 0.'
fn marked(x: Settings, b: u8) -> Arrival
    ensures { result ≡ cond x.parmrk (Arrival.Silent (Unit.Broken b)) (Arrival.Silent Unit.Zero) }
{
    Arrival::Silent(if x.parmrk {
        Unit::Broken(b)
    } else {
        Unit::Zero
    })
}

// 'IGNPAR drops; else PARMRK stores 255,0,X; else 0.'
fn broken(x: Settings, b: u8) -> Arrival
    ensures { result ≡ broken_of x b }
{
    if x.ignpar {
        Arrival::Nothing
    } else {
        marked(x, b)
    }
}

// 'Parity error with INPCK clear: a good byte.'
fn parity(x: Settings, b: u8) -> Arrival
    ensures { result ≡ parity_of x b }
{
    if x.inpck {
        broken(x, b)
    } else {
        Arrival::Good(b)
    }
}

// 'Break: IGNBRK, nothing. Else BRKINT, flush both and INT. Else PARMRK, store 255,0,0; else store 0.'
fn breaks(x: Settings) -> Arrival
    ensures { result ≡ break_of x }
{
    if x.ignbrk {
        Arrival::Nothing
    } else if x.brkint {
        Arrival::Interrupt
    } else {
        marked(x, 0)
    }
}

// 'Hangup: ignored under CLOCAL'
fn hangs_up(x: Settings) -> Arrival
    ensures { result ≡ hangup_of x }
{
    if x.clocal {
        Arrival::Nothing
    } else {
        Arrival::Hangup
    }
}

// 'A hung-up port ignores them, ticks too.'
pub(crate) fn arrives(x: Settings, hung: bool, e: Event) -> Arrival
    ensures { result ≡ arrival_of x hung e }
{
    if hung {
        return Arrival::Nothing;
    }
    match e {
        Event::Good(b) => Arrival::Good(b),
        Event::Parity(b) => parity(x, b),
        Event::Framing(b) => broken(x, b),
        Event::Break => breaks(x),
        Event::Tick => Arrival::Tick,
        Event::Hangup => hangs_up(x),
    }
}
