// The line discipline in one function: any call of document 01 on a port, its three slices and a lent buffer.

#![tactic(auto)]

pub mod changes;
pub mod events;
pub mod reads;
pub mod sending;
pub mod verdicts;

ghost use Rattle.discipline.specs.Contract.{Steps};

use port::{Answered, Port};
use rules::Call;

// 'A read or transmit asks for as many bytes as the lent buffer has'; a write writes the bytes of the lent buffer; the other
// calls leave it alone.
pub fn step(
    p: Port,
    bytes: &mut [u8],
    marks: &mut [u8],
    out: &mut [u8],
    call: Call,
    lent: &mut [u8],
) -> Answered
    ensures { Steps p bytes.old marks.old out.old call lent.old result bytes.new marks.new out.new lent.new }
{
    match call {
        Call::Set(x) => changes::set(p, bytes, marks, x),
        Call::Receive(e) => events::receive(p, bytes, marks, out, e),
        Call::Read { nonblocking } => reads::read(p, bytes, marks, lent, nonblocking),
        Call::Write => sending::write(p, out, lent),
        Call::Transmit => sending::transmit(p, out, lent),
        Call::Flush(choice) => events::flush(p, bytes, marks, out, choice),
        Call::Cancel => reads::cancel(p),
        Call::Foreground { group, orphaned } => verdicts::foreground(p, group, orphaned),
        Call::ReadVerdict(who) => verdicts::read_verdict(p, who),
        Call::WriteVerdict(who) => verdicts::write_verdict(p, who),
        Call::SettingsVerdict(who) => verdicts::settings_verdict(p, who),
    }
}
