// Document 01, 'Received events', on a port: what is flushed, what does not fit, what a signal does, stopped output and 'literal next';
// and the port with what was stored, with the timer of a waiting read.
ghost use Rattle.std.specs.Prelude.{◌≡◌, length, true};
ghost use Rattle.port.specs.Layers.{Turns, Ranged, assembled};
ghost use Rattle.port.specs.State.{with_output};
ghost use Rattle.received.specs.flushing.Contract.{literal_to, stop_to};
ghost use Rattle.rules.specs.Flushing as flushing;
ghost use Rattle.rules.specs.Fit as fit;
ghost use Rattle.rules.specs.Echo as echo;
ghost use Rattle.rules.specs.Received as steps;

use input::Input;
use output::Output;
use port::Port;

// 'Flushing input drops finished lines, the current line and "literal next".'
pub fn flush_input(p: Port, n: usize, out: &[u8]) -> Port
    requires { Ranged p n (length out.now) }
    ensures { Turns p n out.now (λ z s. flushing.flush_input s) result out.now }
{
    let between = waiting::between_bytes(p.settings);
    Port {
        input: p.input.flush(n),
        waiting: waiting::timer_flushed(between, p.waiting),
        ..p
    }
}

// 'What does not fit is dropped without echo: IMAXBEL queues byte 7 unprocessed, if there is room; else all input is flushed.'
pub(crate) fn overflow(p: Port, n: usize, out: &mut [u8]) -> Port
    requires { Ranged p n (length out.old) }
    ensures { Turns p n out.old fit.overflow result out.new }
{
    if p.settings.imaxbel {
        p.with_output(p.output.bell(p.settings, out))
    } else {
        flush_input(p, n, out)
    }
}

// the port with what was stored; a byte stored restarts or starts the timer of a waiting read
pub(crate) fn stored(p: Port, input: Input, output: Output) -> Port
    ensures { result ≡ assembled p input output (fit.timer_stored (flushing.between_bytes p.settings) p.settings p.waiting) }
{
    let between = waiting::between_bytes(p.settings);
    let waiting = waiting::timer_stored(between, p.settings, p.waiting);
    port::assemble(p, input, output, waiting)
}

// 6. 'STOP stops output, START resumes it.'
pub(crate) fn stopped_to(p: Port, stopped: bool) -> Port
    ensures { result ≡ with_output p (stop_to stopped p.output) }
{
    p.with_output(p.output.stop(stopped))
}

// 4. 'set "literal next"'
pub(crate) fn sets_literal(p: Port) -> Port
    ensures { result ≡ assembled p (literal_to true p.input) p.output p.waiting }
{
    Port {
        input: p.input.with_literal(true),
        ..p
    }
}

// 'Flushing input drops .. . Flushing output empties its queue; column and "stopped" stay.'
pub fn flush_both(p: Port, n: usize, out: &[u8]) -> Port
    requires { Ranged p n (length out.now) }
    ensures { Turns p n out.now (λ z s. flushing.flush_both s) result out.now }
{
    flush_input(p, n, out).flush_output(out.len())
}

// 'Both queues are flushed unless NOFLSH'
fn flush_unless(p: Port, n: usize, out: &[u8], kept: bool) -> Port
    requires { Ranged p n (length out.now) }
    ensures { Turns p n out.now (λ z s. steps.flushed_unless kept s) result out.now }
{
    if kept { p } else { flush_both(p, n, out) }
}

// 5. 'Both queues are flushed unless NOFLSH; then the byte is echoed.'
pub(crate) fn signals(p: Port, n: usize, out: &mut [u8], b: u8) -> Port
    requires { Ranged p n (length out.old) }
    ensures { Turns p n out.old (λ z s. echo.shown z (steps.flushed_unless s.settings.noflsh s) (echo.echo_of s.settings b)) result out.new }
{
    let flushed = flush_unless(p, n, out, p.settings.noflsh);
    flushed.with_output(echo::of_byte(flushed.output, p.settings, out, b))
}
