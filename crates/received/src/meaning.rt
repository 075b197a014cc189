// Document 01, 'A good byte': what the byte becomes, steps 1 and 7, and what it means, steps 3 to 9.
ghost use Rattle.std.specs.Prelude.{◌≡◌, ◌&&◌, ◌||◌, eqb};
ghost use Rattle.received.specs.meaning.Meaning.{meaning_of};
ghost use Rattle.rules.specs.Received as steps;
ghost use Rattle.rules.specs.Settings as rule;

use rules::{Settings, Signal};

const NEWLINE: u8 = 10;

const RETURN: u8 = 13;

// 1. 'ISTRIP keeps the low seven bits.'
pub(crate) fn stripped(x: Settings, b: u8) -> u8
    ensures { result ≡ steps.step1 x b }
{
    if x.istrip { b % 128 } else { b }
}

// 7. '13: IGNCR drops, else ICRNL makes it 10. A received 10 becomes 13 under INLCR. One mapping only.'
fn mapped(x: Settings, b: u8) -> u8
    ensures { result ≡ steps.mapped x b }
{
    if b == RETURN && x.icrnl {
        NEWLINE
    } else if b == NEWLINE && x.inlcr {
        RETURN
    } else {
        b
    }
}

// 8. 'ERASE, WERASE, KILL, REPRINT'
#[derive(Clone, Copy)]
pub(crate) enum Edit {
    Erase,
    WordErase,
    Kill,
    Reprint,
}

// A byte beside a meaning is the one that it shows, that edits, or that is stored.
#[derive(Clone, Copy)]
pub(crate) enum Meaning {
    LiteralNext,
    Signals(Signal, u8),
    Stops,
    Starts,
    Drops,
    Edits(Edit, u8),
    Ends(u8),
    Marks,
    Stores(u8),
}

// b is this special character, under a flag
fn special(flag: bool, b: u8, character: u8) -> bool
    ensures { result ≡ (flag && rule.is b character) }
{
    flag && settings::is(b, character)
}

// 'Under ICANON a non-literal 10, EOL or EOL2 .. ends the line.'
fn ends_line(x: Settings, b: u8) -> bool
    ensures { result ≡ (x.icanon && (eqb b 10 || rule.is b x.eol || rule.is b x.eol2)) }
{
    x.icanon && (b == NEWLINE || settings::is(b, x.eol) || settings::is(b, x.eol2))
}

// 9. 'Store.'
fn step9(x: Settings, b: u8) -> Meaning
    ensures { meaning_of x result ≡ steps.step9 x b }
{
    if ends_line(x, b) {
        Meaning::Ends(b)
    } else if special(x.icanon, b, x.eof) {
        Meaning::Marks
    } else {
        Meaning::Stores(b)
    }
}

// 8. 'ICANON: ERASE, WERASE, KILL, REPRINT edit and are consumed.'
fn step8(x: Settings, b: u8) -> Meaning
    ensures { meaning_of x result ≡ steps.step8 x b }
{
    if special(x.icanon, b, x.erase) {
        Meaning::Edits(Edit::Erase, b)
    } else if special(x.icanon, b, x.werase) {
        Meaning::Edits(Edit::WordErase, b)
    } else if special(x.icanon, b, x.kill) {
        Meaning::Edits(Edit::Kill, b)
    } else if special(x.icanon, b, x.reprint) {
        Meaning::Edits(Edit::Reprint, b)
    } else {
        step9(x, b)
    }
}

// 7. '13: IGNCR drops', else it is mapped
fn step7(x: Settings, b: u8) -> Meaning
    ensures { meaning_of x result ≡ steps.step7 x b }
{
    if b == RETURN && x.igncr {
        Meaning::Drops
    } else {
        step8(x, mapped(x, b))
    }
}

// 6. 'IXON: STOP stops output, START resumes it. Consumed, no echo.'
fn step6(x: Settings, b: u8) -> Meaning
    ensures { meaning_of x result ≡ steps.step6 x b }
{
    if special(x.ixon, b, x.stop) {
        Meaning::Stops
    } else if special(x.ixon, b, x.start) {
        Meaning::Starts
    } else {
        step7(x, b)
    }
}

// 5. 'ISIG: INTR, QUIT, SUSP signal INT, QUIT, TSTP.'
fn step5(x: Settings, b: u8) -> Meaning
    ensures { meaning_of x result ≡ steps.step5 x b }
{
    if special(x.isig, b, x.intr) {
        Meaning::Signals(Signal::Int, b)
    } else if special(x.isig, b, x.quit) {
        Meaning::Signals(Signal::Quit, b)
    } else if special(x.isig, b, x.susp) {
        Meaning::Signals(Signal::Tstp, b)
    } else {
        step6(x, b)
    }
}

// What a good byte means after step 1.
// 3. '"Literal next", if set, is cleared; the byte goes to step 9 as literal.'
// 4. 'IEXTEN and LNEXT: set "literal next". No echo.'
pub(crate) fn means(x: Settings, literal: bool, b: u8) -> Meaning
    ensures { meaning_of x result ≡ steps.step3 x literal b }
{
    if literal {
        Meaning::Stores(b)
    } else if special(x.iexten, b, x.lnext) {
        Meaning::LiteralNext
    } else {
        step5(x, b)
    }
}
