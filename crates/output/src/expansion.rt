// Document 01, 'Output': what a written byte turns into.
ghost use Rattle.std.specs.Prelude.{◌≡◌, length};
ghost use Rattle.rules.specs.Output.{expand, newline as newlineOf, return as returnOf};
ghost use Rattle.output.specs.expansion.Contract.{expanded_bytes};

use rules::Settings;

// Nothing, a byte, the pair 13,10, or so many spaces.
#[derive(Clone, Copy)]
pub enum Expansion {
    Nothing,
    Byte(u8),
    Pair,
    Spaces(usize),
}

fn newline(x: Settings, c: u32) -> Expansion
    ensures { expanded_bytes result ≡ newlineOf x c }
{
    if x.onlcr && !(x.onocr && c == 0) {
        Expansion::Pair
    } else {
        Expansion::Byte(10)
    }
}

fn carriage_return(x: Settings, c: u32) -> Expansion
    ensures { expanded_bytes result ≡ returnOf x c }
{
    if x.ocrnl {
        Expansion::Byte(10)
    } else if x.onocr && c == 0 {
        Expansion::Nothing
    } else {
        Expansion::Byte(13)
    }
}

#[tactic(auto, unfolding(rules::specs::Output::expand))]
pub fn expand(x: Settings, c: u32, b: u8) -> Expansion
    ensures { expanded_bytes result ≡ expand x c b }
{
    match b {
        _ if !x.opost => Expansion::Byte(b),
        4 if x.onoeot => Expansion::Nothing,
        9 if x.tab3 => Expansion::Spaces(8 - (c % 8) as usize),
        13 => carriage_return(x, c),
        10 => newline(x, c),
        _ => Expansion::Byte(b),
    }
}

pub fn width(expanded: Expansion) -> usize
    ensures { result ≡ length (expanded_bytes expanded) }
{
    match expanded {
        Expansion::Nothing => 0,
        Expansion::Byte(_) => 1,
        Expansion::Pair => 2,
        Expansion::Spaces(n) => n,
    }
}
