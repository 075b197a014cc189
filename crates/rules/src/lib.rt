// The public types that code and rules share, with document 01's names. Nothing here does anything.

#![tactic(auto)]

// 'Settings': the flags by bit, 0 to 31; the special characters in their order; MIN and TIME.
#[derive(Clone, Copy)]
pub struct Settings {
    pub ignbrk: bool,
    pub brkint: bool,
    pub ignpar: bool,
    pub parmrk: bool,
    pub inpck: bool,
    pub istrip: bool,
    pub inlcr: bool,
    pub igncr: bool,
    pub icrnl: bool,
    pub ixon: bool,
    pub ixany: bool,
    pub imaxbel: bool,
    pub opost: bool,
    pub onlcr: bool,
    pub ocrnl: bool,
    pub tab3: bool,
    pub onoeot: bool,
    pub onocr: bool,
    pub onlret: bool,
    pub clocal: bool,
    pub echo: bool,
    pub echoe: bool,
    pub echok: bool,
    pub echoke: bool,
    pub echonl: bool,
    pub echoctl: bool,
    pub isig: bool,
    pub icanon: bool,
    pub altwerase: bool,
    pub iexten: bool,
    pub tostop: bool,
    pub noflsh: bool,
    pub eof: u8,
    pub eol: u8,
    pub eol2: u8,
    pub erase: u8,
    pub werase: u8,
    pub kill: u8,
    pub reprint: u8,
    pub intr: u8,
    pub quit: u8,
    pub susp: u8,
    pub start: u8,
    pub stop: u8,
    pub lnext: u8,
    pub min: u8,
    pub time: u8,
}

// 'Received events'.
#[derive(Clone, Copy)]
pub enum Event {
    Good(u8),
    Parity(u8),
    Framing(u8),
    Break,
    Tick,
    Hangup,
}

// Who asks for a job control verdict: whether the port is its controlling terminal, its process group,
// whether it ignores or blocks the signal in question (TTIN or TTOU), whether its group is orphaned.
#[derive(Clone, Copy)]
pub struct Process {
    pub controlling: bool,
    pub group: u32,
    pub ignored: bool,
    pub blocked: bool,
    pub orphaned: bool,
}

// Every call there is. A read and a transmit ask for as many bytes as the lent buffer has, a write writes
// the bytes of the lent buffer; the other calls leave the buffer alone.
#[derive(Clone, Copy)]
pub enum Call {
    Set(Settings),
    Receive(Event),
    Read { nonblocking: bool },
    Write,
    Transmit,
    Flush(u8),
    Cancel,
    Foreground { group: u32, orphaned: bool },
    ReadVerdict(Process),
    WriteVerdict(Process),
    SettingsVerdict(Process),
}

#[derive(Clone, Copy)]
pub enum Signal {
    Int,
    Quit,
    Tstp,
    Hup,
}

// 'Job control verdicts'.
#[derive(Clone, Copy)]
pub enum Verdict {
    Allowed,
    Eio,
    Ttin,
    Ttou,
}

// 'Numbers of the refusals', 1 to 5.
#[derive(Clone, Copy)]
pub enum Refusal {
    BadSettings,
    OutOfRange,
    Nothing,
    ReadWaits,
    HungUp,
}

#[derive(Clone, Copy)]
pub enum Outcome {
    Ok,
    Wait,
    Reports(Signal),
    Judged(Verdict),
    Refused(Refusal),
}

// What a call answers; the bytes given stand in the lent buffer.
#[derive(Clone, Copy)]
pub struct Answer {
    pub outcome: Outcome,
    pub count: usize,
}

// The foreground group, where there is one: 'a number .. with an orphaned mark'.
#[derive(Clone, Copy)]
pub struct Group {
    pub number: u32,
    pub orphaned: bool,
}

// The tenths of a second that a timer has left; at 0 it has expired.
#[derive(Clone, Copy)]
pub struct Timer {
    pub left: u8,
}

// The waiting read: none, one whose timer is off, one whose timer is on.
#[derive(Clone, Copy)]
pub enum Waiting {
    Idle,
    Untimed { count: usize },
    Timed { count: usize, timer: Timer },
}

// 'Each of the 256 byte values has one class'.
#[derive(Clone, Copy, PartialEq, Eq)]
pub enum Class {
    Blank,
    Letter,
    Control,
    Other,
}
