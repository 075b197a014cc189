// Document 01, 'Settings': what becomes of the stored input when ICANON goes off, and when it goes on.
ghost use Rattle.input.specs.Contract.{Sound, Within};
ghost use Rattle.input.specs.canonical.Contract.{GoesOff, GoesOn, in_line};
ghost use Rattle.std.specs.Prelude.{◌≡◌, length};

use super::{END_OF_FILE, ENDS, Input, has};
use queue::Queue;

// 'if ICANON goes off, all stored bytes become readable and end-of-file marks vanish'
pub fn without_marks(i: Input, bytes: &mut [u8], marks: &mut [u8]) -> Input
    requires { Sound i bytes.old marks.old }
    ensures { GoesOff i bytes.old marks.old result bytes.new marks.new }
{
    let mut kept = 0;
    for k in 0..i.queue.len {
        let m = i.queue.at(marks, k);
        if !has(m, END_OF_FILE) {
            let b = i.queue.at(bytes, k);
            i.queue.change(bytes, kept, b);
            i.queue.change(marks, kept, m % 16);
            kept += 1;
        }
    }
    Input {
        queue: Queue {
            len: kept,
            ..i.queue
        },
        ready: kept,
        ..i
    }
}

// 'If it goes on, the stored bytes, if any, become one finished line with no delimiter.'
pub fn one_line(i: Input, marks: &mut [u8]) -> Input
    requires { Within i (length marks.old) }
    ensures { GoesOn i marks.old result marks.new }
{
    let len = i.queue.len;
    for k in 0..len {
        let joined = in_line(i.queue.at(marks, k), k + 1 == len);
        i.queue.change(marks, k, joined);
    }
    Input { ready: len, ..i }
}

// the mark byte of a place of one line, its last or another
fn in_line(m: u8, last: bool) -> u8
    ensures { result ≡ in_line last m }
{
    let keep = m % 2 + m / 8 % 2 * 8;
    if last { keep + ENDS } else { keep }
}
