// Document 01, 'Echo': what a byte shows, as itself or in a caret pair; what is shown when it is stored, and when ERASE, WERASE and KILL edit.

#![tactic(auto)]

ghost use Rattle.std.specs.Prelude.{◌≡◌, [], ◌∷◌, ◌++◌, ◌&&◌, cond, eqb};
ghost use Rattle.echo.specs.Contract.{seen_bytes, removed_echo, erased_echo, killed_echo};
ghost use Rattle.output.specs.Contract.{Echoes};
ghost use Rattle.output.specs.columns.Contract.{ExtendsBy};
ghost use Rattle.rules.specs.Echo as echo;

use output::Output;
use output::columns::Measure;
use rules::Settings;

const CARET: u8 = 94;

// What a byte shows: itself, or the caret pair of 94 and this byte.
#[derive(Clone, Copy)]
pub enum Seen {
    Itself(u8),
    Caret(u8),
}

// 'a byte shows as itself; under ECHOCTL controls but 10 show as 94 and the byte plus 64 (63 for 127)'
pub fn visible(x: Settings, b: u8) -> Seen
    ensures { seen_bytes result ≡ echo.visible x b }
{
    match b {
        127 if x.echoctl => Seen::Caret(63),
        9 | 10 => Seen::Itself(b),
        0..=31 if x.echoctl => Seen::Caret(b + 64),
        _ => Seen::Itself(b),
    }
}

// the byte as it is visible
pub fn show(o: Output, x: Settings, out: &mut [u8], b: u8) -> Output
    ensures { Echoes x o out.old (echo.visible x b) result out.new }
{
    show_with(o, x, out, b, false)
}

// and 10 behind it
pub fn show_line(o: Output, x: Settings, out: &mut [u8], b: u8) -> Output
    ensures { Echoes x o out.old (echo.visible x b ++ (10 ∷ [])) result out.new }
{
    show_with(o, x, out, b, true)
}

// the byte as it is visible, and 10 behind it if so asked
fn show_with(o: Output, x: Settings, out: &mut [u8], b: u8, line: bool) -> Output
    ensures { Echoes x o out.old (echo.visible x b ++ cond line (10 ∷ []) []) result out.new }
{
    match visible(x, b) {
        Seen::Itself(seen) if line => o.show(x, out, &[seen, 10]),
        Seen::Itself(seen) => o.show(x, out, &[seen]),
        Seen::Caret(seen) if line => o.show(x, out, &[CARET, seen, 10]),
        Seen::Caret(seen) => o.show(x, out, &[CARET, seen]),
    }
}

// the byte as it is visible, behind what is measured, if all of it fits
pub fn measured(measure: Option<Measure>, x: Settings, b: u8) -> Option<Measure>
    ensures { ExtendsBy x measure (echo.visible x b) result }
{
    match visible(x, b) {
        Seen::Itself(seen) => Measure::and(measure, x, seen),
        Seen::Caret(seen) => measure?.and_all(x, &[CARET, seen]),
    }
}

// 'ECHO clear: nothing is shown'
pub fn of_byte(o: Output, x: Settings, out: &mut [u8], b: u8) -> Output
    ensures { Echoes x o out.old (echo.echo_of x b) result out.new }
{
    if x.echo {
        show(o, x, out, b)
    } else {
        o.fit(out.len())
    }
}

// 'except 10 when it is stored by step 9 under ECHONL and ICANON'
pub fn of_stored(o: Output, x: Settings, out: &mut [u8], b: u8) -> Output
    ensures { Echoes x o out.old (echo.stored_echo x b) result out.new }
{
    if x.echo {
        show(o, x, out, b)
    } else if shows_newline(x, b) {
        o.show(x, out, &[10])
    } else {
        o.fit(out.len())
    }
}

fn shows_newline(x: Settings, b: u8) -> bool
    ensures { result ≡ (eqb b 10 && x.echonl && x.icanon) }
{
    b == 10 && x.echonl && x.icanon
}

// 'ERASE and WERASE under ECHOE show 8,32,8 for each unit removed, else their own echo.'
pub fn of_erased(o: Output, x: Settings, out: &mut [u8], b: u8, n: usize) -> Output
    ensures { Echoes x o out.old (erased_echo x b n) result out.new }
{
    of_removed(o, x, out, b, n, x.echoe, false)
}

// 'KILL: ECHOKE 8,32,8 for each unit; else its echo, and 10 if ECHOK.'
pub fn of_killed(o: Output, x: Settings, out: &mut [u8], b: u8, n: usize) -> Output
    ensures { Echoes x o out.old (killed_echo x b n) result out.new }
{
    of_removed(o, x, out, b, n, x.echoke, x.echok)
}

// n units are gone: each is rubbed out, or b shows, with 10 behind it or not
fn of_removed(
    o: Output,
    x: Settings,
    out: &mut [u8],
    b: u8,
    n: usize,
    rubs: bool,
    line: bool,
) -> Output
    ensures { Echoes x o out.old (removed_echo x b n rubs line) result out.new }
{
    if !x.echo {
        o.fit(out.len())
    } else if rubs {
        o.rub_out(x, out, n)
    } else {
        show_with(o, x, out, b, line)
    }
}
