// Document 01, 'Received events': the unit that a byte is stored as, what fits, a unit stored whole, and the current line ended by a delimiter or
// an end-of-file mark.
ghost use Rattle.std.specs.Prelude.{◌≡◌, false, length, map};
ghost use Rattle.rules.specs.Sizes.{unit, delimiter, end_of_file};
ghost use Rattle.input.specs.Contract.{unit_of, Within, TellsUnit, TellsEnd, Room, byte_of, mark_of, Grows, Stores};
ghost use Rattle.input.specs.Contract.{Ends};
ghost use Rattle.rules.specs.Received as steps;

use super::{END_OF_FILE, ENDS, Input, SILENT, STARTS, Unit};
use rules::Settings;

// The marks of a delimiter, of an end-of-file mark, of the first place of a silent unit; and of a place in a unit.
const DELIMITER: u8 = STARTS | ENDS;

const MARK: u8 = STARTS | ENDS | END_OF_FILE;

const SILENT_START: u8 = STARTS | SILENT;

const WITHIN: u8 = 0;

// 'A 255 with PARMRK set, IGNPAR and ISTRIP clear is stored twice.'
pub fn unit_of(x: Settings, b: u8) -> Unit
    ensures { unit_of result ≡ unit false b (steps.doubled x b) }
{
    if b == 255 && x.parmrk && !x.ignpar && !x.istrip {
        Unit::Doubled
    } else {
        Unit::Plain(b)
    }
}

// the bytes of a unit
pub fn size(u: Unit) -> usize
    ensures { result ≡ length (unit_of u) }
{
    match u {
        Unit::Plain(_) | Unit::Zero => 1,
        Unit::Doubled => 2,
        Unit::Broken(_) => 3,
    }
}

// another unit of u bytes; without ICANON any unit
pub fn unit_fits(i: Input, n: usize, line: usize, canonical: bool, u: usize) -> bool
    requires { Within i n }
    ensures { TellsUnit i n line canonical u result }
{
    let len = i.queue.len;
    if canonical {
        let current = len - i.ready;
        u <= line && current <= line - u && u <= n && len < n - u
    } else {
        u <= n && len <= n - u
    }
}

// 'a delimiter or mark fits if at most 1,023 places are used', in n places
pub fn end_fits(i: Input, n: usize) -> bool
    requires { Within i n }
    ensures { TellsEnd i n result }
{
    i.queue.len < n
}

// the current line ends with a delimiter
pub fn end(i: Input, bytes: &mut [u8], marks: &mut [u8], b: u8) -> Input
    requires { Room i bytes.old marks.old 1 }
    ensures { Ends (delimiter b) i bytes.old marks.old result bytes.new marks.new }
{
    i.add(bytes, marks, b, DELIMITER).all_ready()
}

// the current line ends with an end-of-file mark
pub fn end_of_file(i: Input, bytes: &mut [u8], marks: &mut [u8]) -> Input
    requires { Room i bytes.old marks.old 1 }
    ensures { Ends end_of_file i bytes.old marks.old result bytes.new marks.new }
{
    i.add(bytes, marks, 0, MARK).all_ready()
}

fn add_unit(i: Input, bytes: &mut [u8], marks: &mut [u8], u: Unit) -> Input
    requires { Room i bytes.old marks.old (length (unit_of u)) }
    ensures { Grows i bytes.old marks.old (map byte_of (unit_of u)) (map mark_of (unit_of u)) result bytes.new marks.new }
{
    match u {
        Unit::Plain(b) => i.add(bytes, marks, b, STARTS),
        Unit::Doubled => i
            .add(bytes, marks, 255, STARTS)
            .add(bytes, marks, 255, WITHIN),
        Unit::Zero => i.add(bytes, marks, 0, SILENT_START),
        Unit::Broken(b) => i
            .add(bytes, marks, 255, SILENT_START)
            .add(bytes, marks, 0, SILENT)
            .add(bytes, marks, b, SILENT),
    }
}

// a unit; without ICANON all that is stored is readable
pub fn store(i: Input, bytes: &mut [u8], marks: &mut [u8], canonical: bool, u: Unit) -> Input
    requires { Room i bytes.old marks.old (length (unit_of u)) }
    ensures { Stores canonical (unit_of u) i bytes.old marks.old result bytes.new marks.new }
{
    let longer = add_unit(i, bytes, marks, u);
    if canonical {
        longer
    } else {
        longer.all_ready()
    }
}
