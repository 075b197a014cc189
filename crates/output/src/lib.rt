// Document 01, 'Output' and 'Echo': what is to be sent. Bytes are queued by a write, as an echo that is queued whole or not at all, as a
// bell; a transmit hands them out, and a flush empties the queue.

#![tactic(auto)]

pub mod columns;
mod expansion;

ghost use Rattle.std.specs.Prelude.{◌≡◌, [], ◌∷◌, false, ◌%◌, ◌+◌, ◌<◌, ◌≤◌, length, replicate};
ghost use Rattle.queue.specs.Queue.{laid};
ghost use Rattle.output.specs.Contract.{in_range, Sends, Begins, get, OutputBecomes, Writes, Echoes};
ghost use Rattle.rules.specs.Output.{queued, queued_whole};
ghost use Rattle.rules.specs.Echo.{rubout};
ghost use Rattle.output.specs.expansion.Contract.{expanded_bytes};

use columns::Measure;
use expansion::Expansion;
use queue::{Counted, Queue};
use rules::Settings;

// What is to be sent: a queue in a lent slice of any length, the column behind it, and whether STOP came.
#[derive(Clone, Copy)]
pub struct Output {
    pub queue: Queue,
    pub column: u32,
    pub stopped: bool,
}

impl Output {
    pub fn fresh() -> Output
        ensures { result ≡ record { queue = laid 0 []; column = 0; stopped = false } }
    {
        Output {
            queue: Queue::empty(),
            column: 0,
            stopped: false,
        }
    }

    pub fn fit(self, n: usize) -> Output
        ensures { result ≡ in_range n self }
    {
        Output {
            queue: self.queue.fit(n),
            ..self
        }
    }

    // the room that an echo is measured in
    pub fn measure(self, n: usize) -> Measure
        ensures { Begins self n result }
    {
        Measure {
            room: n.saturating_sub(self.queue.len),
            column: self.column,
        }
    }

    // 'Transmit hands out the oldest queued bytes, none while stopped.'
    pub fn transmit(self, out: &[u8], dst: &mut [u8]) -> Counted<Output>
        ensures { Sends self out.now dst.old result dst.new }
    {
        if self.stopped {
            return Counted {
                rest: self.fit(out.len()),
                count: 0,
            };
        }
        let Counted { rest: queue, count } = self.queue.take(out, dst);
        Counted {
            rest: Output { queue, ..self },
            count,
        }
    }

    // 'Flushing output empties its queue; column and "stopped" stay.'
    pub fn flush(self, n: usize) -> Output
        ensures { result ≡ record { queue = laid (self.queue.head % n) []; column = self.column; stopped = self.stopped } }
    {
        Output {
            queue: self.queue.drop_all(n),
            ..self
        }
    }

    pub fn stop(self, stopped: bool) -> Output
        ensures { result ≡ record { queue = self.queue; column = self.column; stopped = stopped } }
    {
        Output { stopped, ..self }
    }

    // as much of src as fits, byte by byte
    pub fn write(self, x: Settings, out: &mut [u8], src: &[u8]) -> Counted<Output>
        ensures { Writes x self out.old src.now result out.new }
    {
        let n = out.len();
        let mut rest = self.fit(n);
        for (count, b) in src.iter().enumerate() {
            let expanded = expansion::expand(x, rest.column, *b);
            if n - rest.queue.len < expansion::width(expanded) {
                return Counted { rest, count };
            }
            rest = rest.put(x, out, expanded);
        }
        Counted {
            rest,
            count: src.len(),
        }
    }

    // an echo: all of bytes, or nothing
    pub fn show(self, x: Settings, out: &mut [u8], bytes: &[u8]) -> Output
        ensures { Echoes x self out.old bytes.now result out.new }
    {
        let n = out.len();
        match self.measure(n).and_all(x, bytes) {
            Some(_) => self.write(x, out, bytes).rest,
            None => self.fit(n),
        }
    }

    // 8,32,8 for each of n units, all or nothing
    pub fn rub_out(self, x: Settings, out: &mut [u8], n: usize) -> Output
        ensures { Echoes x self out.old (rubout n) result out.new }
    {
        let size = out.len();
        let mut o = self.fit(size);
        if (size - o.queue.len) / 3 < n {
            return o;
        }
        for _ in 0..n {
            o = o.rub_one(x, out);
        }
        o
    }

    // the bell: byte 7 as it is, if there is room
    pub fn bell(self, x: Settings, out: &mut [u8]) -> Output
        ensures { OutputBecomes self out.old (queued_whole (length out.old) x (get self out.old) (7 ∷ [])) result out.new }
    {
        let n = out.len();
        let o = self.fit(n);
        if o.queue.len < n {
            o.put_byte(x, out, 7)
        } else {
            o
        }
    }

    fn put(self, x: Settings, out: &mut [u8], expanded: Expansion) -> Output
        requires { self.queue.len + length (expanded_bytes expanded) ≤ length out.old }
        ensures { OutputBecomes self out.old (queued x (get self out.old) (expanded_bytes expanded)) result out.new }
    {
        match expanded {
            Expansion::Nothing => self.fit(out.len()),
            Expansion::Byte(b) => self.put_byte(x, out, b),
            Expansion::Pair => self.put_byte(x, out, 13).put_byte(x, out, 10),
            Expansion::Spaces(n) => self.put_spaces(x, out, n),
        }
    }

    // one byte as it is, for which there is room
    fn put_byte(self, x: Settings, out: &mut [u8], b: u8) -> Output
        requires { self.queue.len < length out.old }
        ensures { OutputBecomes self out.old (queued x (get self out.old) (b ∷ [])) result out.new }
    {
        Output {
            queue: self.queue.push(out, b),
            column: columns::next_column(x, self.column, b),
            ..self
        }
    }

    fn put_spaces(self, x: Settings, out: &mut [u8], n: usize) -> Output
        requires { self.queue.len + n ≤ length out.old }
        ensures { OutputBecomes self out.old (queued x (get self out.old) (replicate n 32)) result out.new }
    {
        let mut o = self.fit(out.len());
        for _ in 0..n {
            o = o.put_byte(x, out, 32);
        }
        o
    }

    // 8,32,8, for which there is room
    fn rub_one(self, x: Settings, out: &mut [u8]) -> Output
        requires { self.queue.len + 3 ≤ length out.old }
        ensures { OutputBecomes self out.old (queued x (get self out.old) (8 ∷ 32 ∷ 8 ∷ [])) result out.new }
    {
        self.put_byte(x, out, 8)
            .put_byte(x, out, 32)
            .put_byte(x, out, 8)
    }
}
