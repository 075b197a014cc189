// A port of document 01: scalars by value. Its three queues are lent as slices of any length (input bytes, input marks, output), made
// by whoever owns the port. A fresh port, the port with other parts, an answer.

#![tactic(auto)]

ghost use Rattle.std.specs.Prelude.{◌≡◌};
ghost use Rattle.port.specs.State.{with_output};
ghost use Rattle.port.specs.Layers.{assembled};
ghost use Rattle.port.specs.Calls.{ranged};
ghost use Rattle.port.specs.Sending as promise;

use input::Input;
use output::Output;
use rules::{Answer, Group, Outcome, Refusal, Settings, Waiting};

#[derive(Clone, Copy)]
pub struct Port {
    pub settings: Settings,
    pub line: usize,
    pub input: Input,
    pub output: Output,
    pub foreground: Option<Group>,
    pub hung: bool,
    pub waiting: Waiting,
}

#[derive(Clone, Copy)]
pub struct Answered {
    pub port: Port,
    pub answer: Answer,
}

impl Port {
    // 'A line: 254 bytes and its delimiter. Stored input: 1,024 places. Output queue: 2,048 bytes.'
    pub const LINE: usize = 254;

    pub const INPUT: usize = 1024;

    pub const OUTPUT: usize = 2048;

    // 'A fresh port holds no byte, column 0, no foreground group, default settings.'
    pub fn fresh() -> Port
        ensures { result ≡ promise.fresh }
    {
        Port {
            settings: settings::defaults(),
            line: Port::LINE,
            input: Input::fresh(),
            output: Output::fresh(),
            foreground: None,
            hung: false,
            waiting: Waiting::Idle,
        }
    }

    pub fn with_output(self, output: Output) -> Port
        ensures { result ≡ with_output self output }
    {
        Port { output, ..self }
    }

    // 'Flushing output empties its queue; column and "stopped" stay.' The slice of the output has n bytes.
    pub fn flush_output(self, n: usize) -> Port
        ensures { result ≡ promise.flushed self n }
    {
        self.with_output(self.output.flush(n))
    }

    // What every call on a port and its slices begins with: the same port, its numbers in range of n places of input and of
    // room bytes of output.
    pub fn in_range(self, n: usize, room: usize) -> Port
        ensures { result ≡ ranged self n room }
    {
        Port {
            input: self.input.fit(n),
            output: self.output.fit(room),
            ..self
        }
    }
}

// the port and the answer
pub fn says(p: Port, outcome: Outcome, count: usize) -> Answered
    ensures { result ≡ record { port = p; answer = record { outcome = outcome; count = count } } }
{
    Answered {
        port: p,
        answer: Answer { outcome, count },
    }
}

// 'A refusal returns its number and count 0; port and buffers keep every byte.'
pub fn refuses(p: Port, refusal: Refusal) -> Answered
    ensures { result ≡ record { port = p; answer = record { outcome = Outcome.Refused refusal; count = 0 } } }
{
    says(p, Outcome::Refused(refusal), 0)
}

// the port with other queues and another waiting read
pub fn assemble(p: Port, input: Input, output: Output, waiting: Waiting) -> Port
    ensures { result ≡ assembled p input output waiting }
{
    Port {
        input,
        output,
        waiting,
        ..p
    }
}
