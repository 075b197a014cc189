// Document 01, 'The trace program': the line printed for a record, and the lines `cut` and `full`, which end a trace: bytes, words,
// decimal numbers and lower hex laid one after the other into a buffer.
ghost use Rattle.std.specs.Prelude.{◌≡◌, [], ◌∷◌, ◌++◌, ◌+◌, ◌%◌, ◌<◌};
ghost use Rattle.rules.specs.Trace.{digits, decimal, hex_digit, hex_or_dash, cut_line, full_line, signal_word, verdict_word, outcome_word};
ghost use Rattle.records.specs.lines.Puts.{Prints};
ghost use Rattle.records.specs.lines.Lines.{refusal_word, line_of, Lays};

use rules::{Answer, Outcome, Refusal, Signal, Verdict};

// An index, a kind and a count are at most 65,535.
const DIGITS: usize = 5;

// the last digit of n
fn digit(n: usize) -> u8
    ensures { result ≡ 48 + n % 10 }
{
    b'0' + (n % 10) as u8
}

// 'lower hex'
fn hex_digit(value: u8) -> u8
    requires { value < 16 }
    ensures { result ≡ hex_digit value }
{
    if value < 10 {
        b'0' + value
    } else {
        b'a' + (value - 10)
    }
}

fn signal_word(signal: Signal) -> &'static [u8]
    ensures { result.now ≡ signal_word signal }
{
    match signal {
        Signal::Int => b"int",
        Signal::Quit => b"quit",
        Signal::Tstp => b"tstp",
        Signal::Hup => b"hup",
    }
}

fn verdict_word(verdict: Verdict) -> &'static [u8]
    ensures { result.now ≡ verdict_word verdict }
{
    match verdict {
        Verdict::Allowed => b"allowed",
        Verdict::Eio => b"eio",
        Verdict::Ttin => b"ttin",
        Verdict::Ttou => b"ttou",
    }
}

// `r` and a refusal number
fn refusal_word(refusal: Refusal) -> &'static [u8]
    ensures { result.now ≡ refusal_word refusal }
{
    match refusal {
        Refusal::BadSettings => b"r1",
        Refusal::OutOfRange => b"r2",
        Refusal::Nothing => b"r3",
        Refusal::ReadWaits => b"r4",
        Refusal::HungUp => b"r5",
    }
}

// 'outcome (`ok`, `wait`, `int`, `quit`, `tstp`, `hup`, or `r` and a refusal number)'
fn outcome_word(outcome: Outcome) -> &'static [u8]
    ensures { result.now ≡ outcome_word outcome }
{
    match outcome {
        Outcome::Ok => b"ok",
        Outcome::Wait => b"wait",
        Outcome::Reports(signal) => signal_word(signal),
        Outcome::Judged(verdict) => verdict_word(verdict),
        Outcome::Refused(refusal) => refusal_word(refusal),
    }
}

// A line as it is laid into a buffer, and the place behind it. Each function lays one more text, as much of it as the buffer holds.
#[derive(Drop)]
struct Line<'a> {
    buffer: &'a mut [u8],
    at: usize,
}

impl Line<'_> {
    fn byte(&mut self, b: u8)
        ensures { Lays self.old (b ∷ []) self.new }
    {
        if self.at < self.buffer.len() {
            self.buffer[self.at] = b;
            self.at += 1;
        }
    }

    fn word(&mut self, word: &[u8])
        ensures { Lays self.old word.now self.new }
    {
        for b in word {
            self.byte(*b);
        }
    }

    fn digits(&mut self, most: usize, n: usize)
        ensures { Lays self.old (digits most n) self.new }
    {
        if most == 0 {
            return;
        }
        if 10 <= n {
            self.digits(most - 1, n / 10);
        }
        self.byte(digit(n));
    }

    fn decimal(&mut self, n: usize)
        ensures { Lays self.old (decimal n) self.new }
    {
        self.digits(DIGITS, n);
    }

    // 'bytes given in lower hex or `-`'
    fn hex(&mut self, bytes: &[u8])
        ensures { Lays self.old (hex_or_dash bytes.now) self.new }
    {
        if bytes.is_empty() {
            return self.byte(b'-');
        }
        for b in bytes {
            self.byte(hex_digit(*b / 16));
            self.byte(hex_digit(*b % 16));
        }
    }
}

// an index and the word after it
fn put_end(line: &mut [u8], index: usize, word: &[u8]) -> usize
    ensures { Prints line.old (decimal index ++ word.now) result line.new }
{
    let mut line = Line {
        buffer: line,
        at: 0,
    };
    line.decimal(index);
    line.word(word);
    line.at
}

// 'A cut last record prints its index and `cut`.'
pub fn put_cut(line: &mut [u8], index: usize) -> usize
    ensures { Prints line.old (cut_line index) result line.new }
{
    put_end(line, index, b" cut\n")
}

// 'one more, even cut, prints its index and `full` and ends'
pub fn put_full(line: &mut [u8], index: usize) -> usize
    ensures { Prints line.old (full_line index) result line.new }
{
    put_end(line, index, b" full\n")
}

// 'A line each: index from 0, kind, outcome, count, bytes given.'
pub fn put_line(line: &mut [u8], index: usize, kind: usize, answer: Answer, given: &[u8]) -> usize
    ensures { Prints line.old (line_of index kind answer given.now) result line.new }
{
    let mut line = Line {
        buffer: line,
        at: 0,
    };
    line.decimal(index);
    line.byte(b' ');
    line.decimal(kind);
    line.byte(b' ');
    line.word(outcome_word(answer.outcome));
    line.byte(b' ');
    line.decimal(answer.count);
    line.byte(b' ');
    line.hex(given);
    line.byte(b'\n');
    line.at
}
