// Document 01, stored input: what is held, flushing, cutting. A place has its byte in one lent slice and its mark in another of the same
// length. The first `ready` places are finished lines, the rest is the current line.

#![tactic(auto)]

pub mod canonical;
pub mod reading;
pub mod units;

ghost use Rattle.std.specs.Prelude.{◌≡◌, ◌<◌, ◌%◌, ◌/◌, eqb, false, [], ◌∷◌};
ghost use Rattle.queue.specs.Queue.{laid};
ghost use Rattle.input.specs.Contract.{put, Within, fitted, shortened, emptied, Sound, Room, Grows};

use queue::Queue;

#[derive(Clone, Copy)]
pub struct Input {
    pub queue: Queue,
    pub ready: usize,
    pub literal: bool,
}

// Stored input with the slices that it is lent, of one length, its numbers in range.
#[derive(Clone, Copy)]
pub struct Places<'a> {
    pub input: Input,
    pub bytes: &'a [u8],
    pub marks: &'a [u8],
    pub ghost sound: { Sound input bytes.now marks.now },
}

// The mark byte of a place, bit by bit; further bits mean nothing.
pub(crate) const STARTS: u8 = 1; // a unit starts with its place

pub(crate) const ENDS: u8 = 2; // a line ends with it

pub(crate) const END_OF_FILE: u8 = 4; // it is an end-of-file mark

pub(crate) const SILENT: u8 = 8; // its unit had no echo

// whether a mark byte has this bit
pub(crate) fn has(m: u8, bit: u8) -> bool
    requires { 0 < bit }
    ensures { result ≡ eqb (m / bit % 2) 1 }
{
    m / bit % 2 == 1
}

pub fn starts(m: u8) -> bool
    ensures { result ≡ eqb (m % 2) 1 }
{
    has(m, STARTS)
}

pub fn silent(m: u8) -> bool
    ensures { result ≡ eqb (m / 8 % 2) 1 }
{
    has(m, SILENT)
}

// What one event stores: a good byte; a 255 that is doubled; a break or a broken byte as 0, or as 255,0 and the byte.
#[derive(Clone, Copy)]
pub enum Unit {
    Plain(u8),
    Doubled,
    Zero,
    Broken(u8),
}

impl Input {
    pub fn fresh() -> Input
        ensures { result ≡ record { queue = laid 0 []; ready = 0; literal = false } }
    {
        Input {
            queue: Queue::empty(),
            ready: 0,
            literal: false,
        }
    }

    // the same input, its numbers within n places
    pub fn fit(self, n: usize) -> Input
        ensures { result ≡ fitted n self }
    {
        let queue = self.queue.fit(n);
        Input {
            queue,
            ready: queue::least(self.ready, queue.len),
            ..self
        }
    }

    pub fn with_literal(self, literal: bool) -> Input
        ensures { result ≡ record { queue = self.queue; ready = self.ready; literal = literal } }
    {
        Input { literal, ..self }
    }

    // 'Flushing input drops finished lines, the current line and "literal next".'
    pub fn flush(self, n: usize) -> Input
        ensures { result ≡ put emptied (self.queue.head % n) }
    {
        Input {
            queue: self.queue.drop_all(n),
            ..Input::fresh()
        }
    }

    // the places from at on are gone
    pub fn cut(self, n: usize, at: usize) -> Input
        requires { Within self n }
        ensures { result ≡ shortened at self }
    {
        let gone = queue::less(self.queue.len, at);
        Input {
            queue: self.queue.drop_newest(n, gone),
            ..self
        }
    }

    // one place more, at the end of the current line
    pub(crate) fn add(self, bytes: &mut [u8], marks: &mut [u8], b: u8, m: u8) -> Input
        requires { Room self bytes.old marks.old 1 }
        ensures { Grows self bytes.old marks.old (b ∷ []) (m ∷ []) result bytes.new marks.new }
    {
        let queue = self.queue.push(bytes, b);
        self.queue.push(marks, m);
        Input { queue, ..self }
    }

    // all places are finished
    pub(crate) fn all_ready(self) -> Input
        ensures { result ≡ record { queue = self.queue; ready = self.queue.len; literal = self.literal } }
    {
        Input {
            ready: self.queue.len,
            ..self
        }
    }
}
