// Document 01, the foreground group: its number and orphaned mark, the signals that go to it, and 'Job control verdicts'.

#![tactic(auto)]

ghost use Rattle.std.specs.Prelude.{◌≡◌, eqb};
ghost use Rattle.rules.specs.Verdicts as rule;
ghost use Rattle.rules.specs.Received as received;

use rules::{Group, Outcome, Process, Signal, Verdict};

// 'a foreground group: none, or a number 1..2,147,483,647'
pub const LARGEST_GROUP: u32 = 2147483647;

// Refusal 2: 'a group above 2,147,483,647'.
pub fn too_large(group: u32) -> bool
    ensures { result ≡ rule.too_large group }
{
    group > LARGEST_GROUP
}

// 'a foreground group: none, or a number .. with an orphaned mark'; 0 sets none
pub fn group_of(group: u32, orphaned: bool) -> Option<Group>
    ensures { result ≡ rule.group_on (eqb group 0) group orphaned }
{
    if group == 0 {
        None
    } else {
        Some(Group {
            number: group,
            orphaned,
        })
    }
}

// 'INT, QUIT and TSTP go to the foreground group; with none, no signal is reported, nor TSTP for an orphaned group.' 'HUP
// goes to the controlling process.'
pub fn reported(signal: Signal, foreground: Option<Group>) -> Outcome
    ensures { result ≡ received.reported signal foreground }
{
    match (signal, foreground) {
        (Signal::Hup, _) => Outcome::Reports(signal),
        (_, None) => Outcome::Ok,
        (Signal::Tstp, Some(Group { orphaned: true, .. })) => Outcome::Ok,
        _ => Outcome::Reports(signal),
    }
}

// 'in the foreground group'
fn in_foreground(foreground: Option<Group>, group: u32) -> bool
    ensures { result ≡ rule.in_foreground foreground group }
{
    foreground.is_some_and(|front| front.number == group)
}

// 'Not the controlling terminal, or in the foreground group'
fn free(foreground: Option<Group>, who: Process) -> bool
    ensures { result ≡ rule.free foreground who }
{
    !who.controlling || in_foreground(foreground, who.group)
}

// the signal is 'ignored or blocked'
fn deaf(who: Process) -> bool
    ensures { result ≡ rule.deaf who }
{
    who.ignored || who.blocked
}

// 'A background read: EIO if TTIN is ignored or blocked or the group is orphaned; else TTIN to the group.'
pub fn read_verdict(foreground: Option<Group>, who: Process) -> Verdict
    ensures { result ≡ rule.read_verdict foreground who }
{
    if free(foreground, who) {
        Verdict::Allowed
    } else if deaf(who) || who.orphaned {
        Verdict::Eio
    } else {
        Verdict::Ttin
    }
}

// 'A background write: allowed if TOSTOP is clear or TTOU ignored or blocked; else EIO if orphaned; else TTOU.'
pub fn write_verdict(tostop: bool, foreground: Option<Group>, who: Process) -> Verdict
    ensures { result ≡ rule.write_verdict tostop foreground who }
{
    if free(foreground, who) || !tostop || deaf(who) {
        Verdict::Allowed
    } else if who.orphaned {
        Verdict::Eio
    } else {
        Verdict::Ttou
    }
}

// 'Changing settings: as a write with TOSTOP set.'
pub fn settings_verdict(foreground: Option<Group>, who: Process) -> Verdict
    ensures { result ≡ rule.settings_verdict foreground who }
{
    write_verdict(true, foreground, who)
}
