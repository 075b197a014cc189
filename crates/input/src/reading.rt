// Document 01, 'Reads': what a read gives of the first finished line, and what it takes from the stored input.
ghost use Rattle.std.specs.Prelude.{length};
ghost use Rattle.input.specs.Contract.{Within, Sound};
ghost use Rattle.input.specs.reading.Contract.{TellsLine, ReadsLine, ReadsBytes, Gives, Given};

use super::{END_OF_FILE, ENDS, Input, has};
use queue::Counted;

// The bytes of the first line that a read gives, and the places that it takes: a mark is a place and no byte.
#[derive(Clone, Copy)]
pub struct Line {
    pub count: usize,
    pub taken: usize,
}

// 'at most the requested bytes of the first finished line, its NL, EOL or EOL2 included'
pub fn first_line(i: Input, marks: &[u8], n: usize) -> Line
    requires { Within i (length marks.now) }
    ensures { TellsLine i marks.now n result }
{
    let most = n.min(i.ready);
    for k in 0..most {
        let m = i.queue.at(marks, k);
        if has(m, END_OF_FILE) {
            return Line {
                count: k,
                taken: k + 1, // a mark is taken and gives no byte
            };
        }
        if has(m, ENDS) {
            return Line {
                count: k + 1,
                taken: k + 1,
            };
        }
    }
    if most < i.ready && has(i.queue.at(marks, most), END_OF_FILE) {
        return Line {
            count: most,
            taken: most + 1, // 'Taking the last byte before a mark takes the mark.'
        };
    }
    Line {
        count: most,
        taken: most,
    }
}

// count bytes into dst; the oldest `taken` places are gone
fn give(i: Input, bytes: &[u8], dst: &mut [u8], count: usize, taken: usize) -> Counted<Input>
    requires { Gives i bytes.now dst.old count taken }
    ensures { Given i bytes.now dst.old count taken result dst.new }
{
    i.queue.take(bytes, &mut dst[..count]);
    let rest = Input {
        queue: i.queue.drop_oldest(bytes, taken),
        ready: i.ready - taken,
        ..i
    };
    Counted { rest, count }
}

// the first line, as much of it as dst has room for
pub fn read_line(i: Input, bytes: &[u8], marks: &[u8], dst: &mut [u8]) -> Counted<Input>
    requires { Sound i bytes.now marks.now }
    ensures { ReadsLine i bytes.now marks.now dst.old result dst.new }
{
    let line = first_line(i, marks, dst.len());
    give(i, bytes, dst, line.count, line.taken)
}

// 'A done read takes min(n, stored).'
pub fn read_bytes(i: Input, bytes: &[u8], dst: &mut [u8]) -> Counted<Input>
    requires { Within i (length bytes.now) }
    ensures { ReadsBytes i bytes.now dst.old result dst.new }
{
    let k = dst.len().min(i.ready);
    give(i, bytes, dst, k, k)
}
