// Document 01, 'Editing': how many units of the current line ERASE and KILL remove, and where these begin; which bytes of it REPRINT shows. Walks
// go back over the current line alone.

#![tactic(auto)]

mod classes;
pub mod reprinting;
pub mod words;

ghost use Rattle.std.specs.Prelude.{◌≡◌, ◌<◌, min, length};
ghost use Rattle.input.specs.Contract.{Within};
ghost use Rattle.editing.specs.Contract.{Line, Starts, shows_at, CutsOne, RemovesBy};

use input::Input;

// A run of units before a place: where it begins, and how many it has.
#[derive(Clone, Copy)]
pub struct Run {
    pub at: usize,
    pub units: usize,
}

// where the unit begins whose last place stands before end
pub(crate) fn unit_start(i: Input, marks: &[u8], end: usize) -> usize
    requires line { Line i marks.now end }
    requires ready_lt_end { i.ready < end }
    ensures { Starts i marks.now end result }
{
    let second = i.ready + 1; // the first place of the line begins a unit in any case
    for at in (second..end).rev() {
        if input::starts(i.queue.at(marks, at)) {
            return at;
        }
    }
    i.ready
}

// one unit before end, where there is one
pub(crate) fn one(i: Input, marks: &[u8], end: usize) -> Run
    requires { Line i marks.now end }
    ensures { CutsOne i marks.now end result }
{
    if end <= i.ready {
        Run { at: end, units: 0 }
    } else {
        let at = unit_start(i, marks, end);
        Run { at, units: 1 }
    }
}

// 'ERASE removes the last unit of the current line'
pub fn last_unit(i: Input, marks: &[u8]) -> Run
    requires { Within i (length marks.now) }
    ensures { RemovesBy (λ us. min 1 (length us)) i marks.now result }
{
    one(i, marks, i.queue.len)
}

// 'KILL all of it'
pub fn whole_line(i: Input, marks: &[u8]) -> Run
    requires { Within i (length marks.now) }
    ensures { RemovesBy length i marks.now result }
{
    let mut at = i.queue.len;
    let mut units = 0;
    while at > i.ready {
        at = unit_start(i, marks, at);
        units += 1;
    }
    Run { at, units }
}

// place k begins a unit of the current line that is not silent: REPRINT shows its byte
pub(crate) fn is_shown(i: Input, marks: &[u8], k: usize) -> bool
    ensures { result ≡ shows_at i marks.now k }
{
    let m = i.queue.at(marks, k);
    !input::silent(m) && (k == i.ready || input::starts(m))
}
