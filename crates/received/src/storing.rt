// Document 01, 'Received events': what an event stores, if it fits, and what that shows.
ghost use Rattle.std.specs.Prelude.{◌≡◌, length};
ghost use Rattle.input.specs.Contract.{Within, Room, InputBecomes, get};
ghost use Rattle.output.specs.Contract.{Echoes, in_range};
ghost use Rattle.port.specs.Layers.{Ready};
ghost use Rattle.received.specs.Contract.{Does};
ghost use Rattle.received.specs.storing.Contract.{Fits, places_taken, input_with, bytes_shown};
ghost use Rattle.received.specs.storing.Contract as rule;

use super::flushing;
use input::{Input, Unit, units};
use output::Output;
use port::Port;
use rules::Settings;

// What an event stores: a good byte | the unit of a break or a broken byte, 'literal', with 'no echo' |
// a delimiter, which 'is stored and ends the line' | 'a mark that ends it, without echo'
#[derive(Clone, Copy)]
pub(crate) enum Stored {
    Byte(u8),
    Silent(Unit),
    Delimiter(u8),
    Mark,
}

// it fits in n places
fn fits(p: Port, n: usize, what: Stored) -> bool
    requires { Within p.input n }
    ensures { Fits p n what result }
{
    let x = p.settings;
    let i = p.input;
    match what {
        Stored::Byte(b) => {
            let unit = units::unit_of(x, b);
            units::unit_fits(i, n, p.line, x.icanon, units::size(unit))
        }
        Stored::Silent(silent) => units::unit_fits(i, n, p.line, x.icanon, units::size(silent)),
        Stored::Delimiter(_) | Stored::Mark => units::end_fits(i, n),
    }
}

// the input with it
fn kept(i: Input, x: Settings, bytes: &mut [u8], marks: &mut [u8], what: Stored) -> Input
    requires { Room i bytes.old marks.old (length (places_taken x what)) }
    ensures { InputBecomes i bytes.old marks.old (input_with x (get i bytes.old marks.old) what) result bytes.new marks.new }
{
    match what {
        Stored::Byte(b) => units::store(i, bytes, marks, x.icanon, units::unit_of(x, b)),
        Stored::Silent(silent) => units::store(i, bytes, marks, x.icanon, silent),
        Stored::Delimiter(b) => units::end(i, bytes, marks, b),
        Stored::Mark => units::end_of_file(i, bytes, marks),
    }
}

// the output with what it shows
fn shown(o: Output, x: Settings, out: &mut [u8], what: Stored) -> Output
    requires { o ≡ in_range (length out.old) o }
    ensures { Echoes x o out.old (bytes_shown x what) result out.new }
{
    match what {
        Stored::Byte(b) | Stored::Delimiter(b) => echo::of_stored(o, x, out, b),
        Stored::Silent(_) | Stored::Mark => o,
    }
}

// 9. 'Store', and what that shows; 'what does not fit is dropped without echo'
pub(crate) fn stores(
    p: Port,
    bytes: &mut [u8],
    marks: &mut [u8],
    out: &mut [u8],
    what: Stored,
) -> Port
    requires { Ready p bytes.old marks.old out.old }
    ensures { Does p bytes.old marks.old out.old (rule.storing what) result bytes.new marks.new out.new }
{
    let n = bytes.len();
    if fits(p, n, what) {
        let input = kept(p.input, p.settings, bytes, marks, what);
        let output = shown(p.output, p.settings, out, what);
        flushing::stored(p, input, output)
    } else {
        flushing::overflow(p, n, out)
    }
}
