// Document 01, the foreground group and 'Job control verdicts', for every value of port.
ghost use Rattle.std.specs.Prelude.{◌≡◌, []};
ghost use Rattle.port.specs.Calls.{step_of, grouped, with_group, unchanged};
ghost use Rattle.port.specs.State.{get};
ghost use Rattle.rules.specs.Verdicts as rule;

use port::{Answered, Port};
use rules::{Call, Group, Outcome, Process, Refusal, Verdict};

fn with_group(p: Port, foreground: Option<Group>) -> Port
    ensures { result ≡ with_group p foreground }
{
    Port { foreground, ..p }
}

// 'a foreground group: none, or a number 1..2,147,483,647 with an orphaned mark'
pub fn foreground(p: Port, group: u32, orphaned: bool) -> Answered
    ensures { result ≡ grouped p (step_of p [] [] [] (Call.Foreground group orphaned) []) }
{
    if jobs::too_large(group) {
        port::refuses(p, Refusal::OutOfRange) // 'a group above 2,147,483,647'
    } else {
        let foreground = jobs::group_of(group, orphaned);
        port::says(with_group(p, foreground), Outcome::Ok, 0)
    }
}

// Refusal 2: 'a group above 2,147,483,647, or a process group of 0 in a verdict'.
fn judged(p: Port, who: Process, verdict: Verdict) -> Answered
    ensures { result ≡ unchanged p (rule.judged (get p [] [] []) who verdict) }
{
    if jobs::too_large(who.group) || who.group == 0 {
        port::refuses(p, Refusal::OutOfRange)
    } else {
        port::says(p, Outcome::Judged(verdict), 0)
    }
}

// 'Job control verdicts': a background read
pub fn read_verdict(p: Port, who: Process) -> Answered
    ensures { result ≡ unchanged p (step_of p [] [] [] (Call.ReadVerdict who) []) }
{
    judged(p, who, jobs::read_verdict(p.foreground, who))
}

// a background write
pub fn write_verdict(p: Port, who: Process) -> Answered
    ensures { result ≡ unchanged p (step_of p [] [] [] (Call.WriteVerdict who) []) }
{
    let verdict = jobs::write_verdict(p.settings.tostop, p.foreground, who);
    judged(p, who, verdict)
}

// 'Changing settings: as a write with TOSTOP set.'
pub fn settings_verdict(p: Port, who: Process) -> Answered
    ensures { result ≡ unchanged p (step_of p [] [] [] (Call.SettingsVerdict who) []) }
{
    judged(p, who, jobs::settings_verdict(p.foreground, who))
}
