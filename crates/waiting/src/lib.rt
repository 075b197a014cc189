// Document 01, 'Reads': the waiting read and its timer, as it begins and goes on, by ticks, stored units and input flushes; when what is stored is
// enough for a read; and refusal 4, what does not go with a waiting read.

#![tactic(auto)]

ghost use Rattle.std.specs.Prelude.{◌≡◌, ◌-◌, eqb, ltb, ◌||◌, List, length};
ghost use Rattle.rules.specs.Sizes.{Place};
ghost use Rattle.rules.specs.Received as received;
ghost use Rattle.rules.specs.Reads as read;
ghost use Rattle.rules.specs.Flushing as flushing;
ghost use Rattle.rules.specs.Fit as fit;
ghost use Rattle.rules.specs.Step as step;

use rules::{Settings, Timer, Waiting};

// at zero it stays
fn one_less(left: u8) -> u8
    ensures { result ≡ left - 1 }
{
    left.saturating_sub(1)
}

// The timer a tenth of a second later, where it is lent.
fn tick(timer: &mut Timer)
    ensures { timer.new ≡ record { left = timer.old.left - 1 } }
{
    timer.left = one_less(timer.left);
}

// The same by value: the timer is lent to `tick`.
fn lower(mut timer: Timer) -> Timer
    ensures { result ≡ record { left = timer.left - 1 } }
{
    tick(&mut timer);
    timer
}

// 'While a read waits, each tenth of a second lowers it by one.'
pub fn lowered(w: Waiting) -> Waiting
    ensures { result ≡ received.lowered w }
{
    match w {
        Waiting::Timed { count, timer } => Waiting::Timed {
            count,
            timer: lower(timer),
        },
        _ => w,
    }
}

pub fn expired(w: Waiting) -> bool
    ensures { result ≡ read.expired w }
{
    matches!(w, Waiting::Timed { timer, .. } if timer.left == 0)
}

// The timer of 'MIN and TIME above 0' is the one in force: it runs between bytes.
pub fn between_bytes(x: Settings) -> bool
    ensures { result ≡ flushing.between_bytes x }
{
    !x.icanon && x.min > 0 && x.time > 0
}

// 'An input flush turns this timer off, expired or not, until the next unit.' The timer of MIN 0: 'no flush touches it'.
pub fn timer_flushed(between: bool, w: Waiting) -> Waiting
    ensures { result ≡ flushing.timer_flushed between w }
{
    match w {
        Waiting::Timed { count, .. } if between => Waiting::Untimed { count },
        _ => w,
    }
}

// 'the timer starts at TIME'
fn started(x: Settings, count: usize) -> Waiting
    ensures { result ≡ Waiting.Timed count (record { left = x.time }) }
{
    Waiting::Timed {
        count,
        timer: Timer { left: x.time },
    }
}

// 'it starts again with each further unit'; at zero 'new bytes no longer restart it'
fn restarted(x: Settings, count: usize, timer: Timer) -> Waiting
    ensures { result ≡ fit.restarted_on (eqb timer.left 0) x count timer }
{
    if timer.left == 0 {
        Waiting::Timed { count, timer }
    } else {
        started(x, count)
    }
}

// A unit is stored.
pub fn timer_stored(between: bool, x: Settings, w: Waiting) -> Waiting
    ensures { result ≡ fit.timer_stored between x w }
{
    match w {
        Waiting::Untimed { count } if between => started(x, count),
        Waiting::Timed { count, timer } if between => restarted(x, count, timer),
        _ => w,
    }
}

// Refusal 4: 'a read waits, and .. a read comes non-blocking or with another length'.
pub fn clashes(w: Waiting, nonblocking: bool, n: usize) -> bool
    ensures { result ≡ read.clashes w nonblocking n }
{
    match w {
        Waiting::Idle => false,
        Waiting::Untimed { count } | Waiting::Timed { count, .. } => nonblocking || count != n,
    }
}

// Refusal 4: 'a read waits, and settings are changed'.
pub fn a_read_waits(w: Waiting) -> bool
    ensures { result ≡ step.a_read_waits w }
{
    !matches!(w, Waiting::Idle)
}

// 'Noncanonical, n requested: done when min(MIN, n) bytes are stored, or, for MIN 0, when one is. MIN and TIME both 0: at
// once, 0 if empty.'
pub fn enough(x: Settings, n: usize, stored: usize) -> bool
    ensures { result ≡ read.enough x n stored }
{
    if x.min == 0 {
        x.time == 0 || stored > 0
    } else {
        usize::from(x.min).min(n) <= stored
    }
}

// MIN 0, or a byte is stored
fn starts(x: Settings, stored: usize) -> bool
    ensures { result ≡ (eqb x.min 0 || ltb 0 stored) }
{
    x.min == 0 || stored > 0
}

// The waiting read of n bytes as it begins, where so many places are finished. 'MIN and TIME above 0: the timer starts at
// TIME with the read if any byte is stored then'; 'MIN 0, TIME above 0: it starts with the read'.
pub fn begins(x: Settings, stored: usize, n: usize) -> Waiting
    ensures { (ps : List Place) → length ps ≡ stored → result ≡ read.begins x ps n }
{
    if !x.icanon && x.time > 0 && starts(x, stored) {
        started(x, n)
    } else {
        Waiting::Untimed { count: n }
    }
}

// A poll of the waiting read leaves it as it is.
pub fn waits(new: Waiting, old: Waiting) -> Waiting
    ensures { result ≡ read.waits_on new old }
{
    match old {
        Waiting::Idle => new,
        _ => old,
    }
}
