// Document 01, 'Settings': 'New settings', for every value of port and slices: what becomes of the stored input and of stopped output.
ghost use Rattle.std.specs.Prelude.{◌≡◌, []};
ghost use Rattle.input.specs.Contract.{Sound};
ghost use Rattle.port.specs.Calls.{step_of};
ghost use Rattle.discipline.specs.changes.Contract.{Changes, resumed, with_settings, Sets};

use input::{Input, canonical};
use output::Output;
use port::{Answered, Port};
use rules::{Call, Outcome, Refusal, Settings};

// 'if ICANON goes off, all stored bytes become readable and end-of-file marks vanish. If it goes on, the stored bytes, if any,
// become one finished line with no delimiter.'
fn change_input(i: Input, bytes: &mut [u8], marks: &mut [u8], was: bool, is: bool) -> Input
    requires { Sound i bytes.old marks.old }
    ensures { Changes was is i bytes.old marks.old result bytes.new marks.new }
{
    match (was, is) {
        (true, false) => canonical::without_marks(i, bytes, marks),
        (false, true) => canonical::one_line(i, marks),
        _ => i,
    }
}

// 'If IXON goes off, output resumes.'
fn change_output(o: Output, was: bool, is: bool) -> Output
    ensures { result ≡ resumed was is o }
{
    if was && !is { o.stop(false) } else { o }
}

fn with_settings(p: Port, x: Settings, input: Input, output: Output) -> Port
    ensures { result ≡ with_settings p x input output }
{
    Port {
        settings: x,
        input,
        output,
        ..p
    }
}

// 'Settings test 4, then 1.'
pub fn set(p: Port, bytes: &mut [u8], marks: &mut [u8], x: Settings) -> Answered
    ensures { Sets p bytes.old marks.old x (step_of p bytes.old marks.old [] (Call.Set x) []) result bytes.new marks.new }
{
    if waiting::a_read_waits(p.waiting) {
        return port::refuses(p, Refusal::ReadWaits);
    }
    if !settings::acceptable(x) {
        return port::refuses(p, Refusal::BadSettings);
    }
    let n = bytes.len().min(marks.len());
    let old = p.settings;
    let input = change_input(
        p.input.fit(n),
        &mut bytes[..n],
        &mut marks[..n],
        old.icanon,
        x.icanon,
    );
    let output = change_output(p.output, old.ixon, x.ixon);
    port::says(with_settings(p, x, input, output), Outcome::Ok, 0)
}
