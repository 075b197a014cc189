// Document 01, 'The trace program': what a record asks for, by its kind and the numbers in its body.

#![tactic(auto)]

pub mod lines;

ghost use Rattle.std.specs.Prelude.{◌≡◌, ◌<◌, []};
ghost use Rattle.rules.specs.Trace.{«two», «four», asks, settings_record, read_record, write_record, transmit_record};
ghost use Rattle.rules.specs.Trace.{flush_record, foreground_record};
ghost use Rattle.records.specs.Records.{told, Decodes};

use rules::{Call, Event};

// '15 values'
pub const VALUES: usize = 15;

// '1 settings (4 flag bytes, 15 values)'
pub const SETTINGS: usize = 4 + VALUES;

// '8 read (2-byte count to 1,024'
pub const MOST_READ: usize = 1024;

// '9 write (0 to 512)'
pub const MOST_WRITTEN: usize = 512;

// '10 transmit (2-byte count to 2,048)'
pub const MOST_SENT: usize = 2048;

// '13 foreground (4-byte group to 2,147,483,647'
pub const MOST_GROUP: u32 = 2147483647;

// A 2-byte number, 'little-endian'.
pub fn two(a: u8, b: u8) -> usize
    ensures value { result ≡ «two» a b }
    ensures upper_bound { result < 65536 }
{
    usize::from(u16::from_le_bytes([a, b]))
}

fn four(a: u8, b: u8, c: u8, d: u8) -> u32
    ensures { result ≡ «four» a b c d }
{
    u32::from_le_bytes([a, b, c, d])
}

// What a record asks for, and how many bytes are lent to the call: for a write the body itself, for a read and a
// transmit so many zeros.
#[derive(Clone, Copy)]
pub struct Asked {
    pub call: Call,
    pub lent: usize,
}

// A call that is lent no byte.
fn asks(call: Call) -> Option<Asked>
    ensures { result ≡ told (asks call []) }
{
    Some(Asked { call, lent: 0 })
}

// '1 settings (4 flag bytes, 15 values)'
fn settings_record(body: &[u8]) -> Option<Asked>
    ensures { result ≡ told (settings_record body.now) }
{
    let &[a, b, c, d, ref values @ ..] = body else {
        return None;
    };
    let values = values.as_array::<VALUES>()?;
    asks(Call::Set(settings::settings_of(four(a, b, c, d), *values)))
}

// '8 read (2-byte count to 1,024, then 0 or 1 for non-blocking)'
fn read_record(body: &[u8]) -> Option<Asked>
    ensures { result ≡ told (read_record body.now) }
{
    let &[low, high, flag @ 0..=1] = body else {
        return None;
    };
    let n = two(low, high);
    let call = Call::Read {
        nonblocking: flag == 1,
    };
    (n <= MOST_READ).then_some(Asked { call, lent: n })
}

// '9 write (0 to 512)'
fn write_record(body: &[u8]) -> Option<Asked>
    ensures { result ≡ told (write_record body.now) }
{
    let n = body.len();
    (n <= MOST_WRITTEN).then_some(Asked {
        call: Call::Write,
        lent: n,
    })
}

// '10 transmit (2-byte count to 2,048)'
fn transmit_record(body: &[u8]) -> Option<Asked>
    ensures { result ≡ told (transmit_record body.now) }
{
    let &[low, high] = body else {
        return None;
    };
    let n = two(low, high);
    (n <= MOST_SENT).then_some(Asked {
        call: Call::Transmit,
        lent: n,
    })
}

// '11 flush (1 input, 2 output, 3 both)'
fn flush_record(body: &[u8]) -> Option<Asked>
    ensures { result ≡ told (flush_record body.now) }
{
    let &[choice @ 1..=3] = body else {
        return None;
    };
    asks(Call::Flush(choice))
}

// '13 foreground (4-byte group to 2,147,483,647, 0 for none; orphaned 0 or 1)'
fn foreground_record(body: &[u8]) -> Option<Asked>
    ensures { result ≡ told (foreground_record body.now) }
{
    let &[a, b, c, d, flag @ 0..=1] = body else {
        return None;
    };
    let group = four(a, b, c, d);
    let call = Call::Foreground {
        group,
        orphaned: flag == 1,
    };
    (group <= MOST_GROUP).then_some(Asked { call, lent: 0 })
}

// What a record of this kind and body asks for. 'Unknown kinds, wrong lengths and other values are malformed.'
pub fn decode(kind: usize, body: &[u8]) -> Option<Asked>
    ensures { Decodes kind body.now result }
{
    match (kind, body) {
        (1, _) => settings_record(body),
        (2, &[b]) => asks(Call::Receive(Event::Good(b))),
        (3, &[b]) => asks(Call::Receive(Event::Parity(b))),
        (4, &[b]) => asks(Call::Receive(Event::Framing(b))),
        (5, []) => asks(Call::Receive(Event::Break)),
        (6, []) => asks(Call::Receive(Event::Tick)),
        (7, []) => asks(Call::Receive(Event::Hangup)),
        (8, _) => read_record(body),
        (9, _) => write_record(body),
        (10, _) => transmit_record(body),
        (11, _) => flush_record(body),
        (12, []) => asks(Call::Cancel),
        (13, _) => foreground_record(body),
        _ => None,
    }
}
