// Document 01, 'Editing', on a port: ERASE, WERASE, KILL, REPRINT, each by what it removes or shows again.
ghost use Rattle.std.specs.Fn.{FnOnceReturnsAtMut};
ghost use Rattle.std.specs.Prelude.{◌≡◌, length, leb};
ghost use Rattle.rules.specs.Editing.{erase, word_erase, kill, reprint};
ghost use Rattle.input.specs.Contract.{Within};
ghost use Rattle.port.specs.Layers.{Ranged, Ready};
ghost use Rattle.received.specs.Contract.{Does};
ghost use Rattle.received.specs.edits.Contract.{without, Removed, edits, Edited};
ghost use Rattle.received.specs.meaning.Meaning.{edit_of};

use super::meaning::Edit;
use editing::{Run, reprinting, words};
use input::Input;
use output::Output;
use port::Port;

// the current line has no unit
fn line_empty(i: Input) -> bool
    ensures { result ≡ leb i.queue.len i.ready }
{
    i.queue.len <= i.ready
}

// the line ends where the run begins
fn without(p: Port, n: usize, run: Run) -> Port
    requires { Within p.input n }
    ensures { result ≡ «without» p run }
{
    Port {
        input: p.input.cut(n, run.at),
        ..p
    }
}

// the units of the run are gone, and what that shows is shown; on an empty line nothing
fn removes<F: FnOnce(&mut [u8]) -> Output>(
    p: Port,
    n: usize,
    out: &mut [u8],
    run: Run,
    shows: F,
) -> Port
    requires within { Within p.input n }
    requires callable { F.IsAlwaysCallable shows }
    ensures { Removed (leb p.input.queue.len p.input.ready) (FnOnceReturnsAtMut F.FnOnce shows) p run out.old result out.new }
{
    if line_empty(p.input) {
        p
    } else {
        without(p, n, run).with_output(shows(out))
    }
}

// ERASE and WERASE by the character b
fn erases(p: Port, n: usize, out: &mut [u8], b: u8, run: Run) -> Port
    requires { Ranged p n (length out.old) }
    ensures { Edited p n out.old run b result out.new erase × Edited p n out.old run b result out.new word_erase }
{
    removes(p, n, out, run, |out| {
        echo::of_erased(p.output, p.settings, out, b, run.units)
    })
}

// KILL by the character b
fn kills(p: Port, n: usize, out: &mut [u8], b: u8, run: Run) -> Port
    requires { Ranged p n (length out.old) }
    ensures { Edited p n out.old run b result out.new kill }
{
    removes(p, n, out, run, |out| {
        echo::of_killed(p.output, p.settings, out, b, run.units)
    })
}

// REPRINT: the line stays, and is shown again
fn reprints(p: Port, bytes: &[u8], marks: &[u8], out: &mut [u8], b: u8) -> Port
    requires { Ready p bytes.now marks.now out.old }
    ensures { Does p bytes.now marks.now out.old (edits reprint b) result bytes.now marks.now out.new }
{
    let output = reprinting::of_reprinted(p.output, p.settings, p.input, bytes, marks, out, b);
    p.with_output(output)
}

// 8. 'ICANON: ERASE, WERASE, KILL, REPRINT edit and are consumed.'
pub(crate) fn edit(p: Port, bytes: &[u8], marks: &[u8], out: &mut [u8], kind: Edit, b: u8) -> Port
    requires { Ready p bytes.now marks.now out.old }
    ensures { Does p bytes.now marks.now out.old (edits (edit_of kind) b) result bytes.now marks.now out.new }
{
    let i = p.input;
    let n = bytes.len();
    match kind {
        Edit::Erase => erases(p, n, out, b, editing::last_unit(i, marks)),
        Edit::WordErase => erases(p, n, out, b, words::last_word(i, p.settings, bytes, marks)),
        Edit::Kill => kills(p, n, out, b, editing::whole_line(i, marks)),
        Edit::Reprint => reprints(p, bytes, marks, out, b),
    }
}
