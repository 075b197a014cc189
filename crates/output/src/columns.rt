// Document 01, 'Output': the column behind a byte, and a run of bytes that is measured before it is queued.
ghost use Rattle.std.specs.Prelude.{◌≡◌, replicate, Some};
ghost use Rattle.rules.specs.Output.{capped, moved, column_after, columns_after};
ghost use Rattle.output.specs.columns.Contract.{Extends, ExtendsBy};
ghost use Rattle.output.specs.expansion.Contract.{expanded_bytes};

use super::expansion::{self, Expansion};
use rules::Settings;

// 'A result above 65,535 becomes 65,528.'
const LARGEST: u64 = 65535;

const CAPPED: u32 = 65528;

fn cap(column: u64) -> u32
    ensures { result ≡ capped column }
{
    if column > LARGEST {
        CAPPED
    } else {
        column as u32
    }
}

// where the byte b leaves column c, before the cap
fn moved(x: Settings, c: u32, b: u8) -> u64
    ensures { result ≡ moved x c b }
{
    let wide = u64::from(c);
    match b {
        13 => 0,
        8 => wide.saturating_sub(1),
        9 => wide / 8 * 8 + 8,
        10 if x.opost && x.onlret => 0,
        0..=31 | 127 => wide,
        _ => wide + 1,
    }
}

#[tactic(auto, unfolding(rules::specs::Output::column_after))]
pub fn next_column(x: Settings, c: u32, b: u8) -> u32
    ensures { result ≡ column_after x c b }
{
    cap(moved(x, c, b))
}

fn column_after_spaces(x: Settings, c: u32, n: usize) -> u32
    ensures { result ≡ columns_after x c (replicate n 32) }
{
    let mut column = c;
    for _ in 0..n {
        column = next_column(x, column, 32);
    }
    column
}

fn column_after(x: Settings, c: u32, expanded: Expansion) -> u32
    ensures { result ≡ columns_after x c (expanded_bytes expanded) }
{
    match expanded {
        Expansion::Nothing => c,
        Expansion::Byte(b) => next_column(x, c, b),
        Expansion::Pair => next_column(x, next_column(x, c, 13), 10),
        Expansion::Spaces(n) => column_after_spaces(x, c, n),
    }
}

// Behind a run of bytes that is measured before it is queued: the room left, and the column.
#[derive(Clone, Copy)]
pub struct Measure {
    pub room: usize,
    pub column: u32,
}

impl Measure {
    // with the byte b behind what is measured, if all of it fits
    pub fn and(measure: Option<Measure>, x: Settings, b: u8) -> Option<Measure>
        ensures { Extends x measure b result }
    {
        let before = measure?;
        let expanded = expansion::expand(x, before.column, b);
        let room = before.room.checked_sub(expansion::width(expanded))?;
        Some(Measure {
            room,
            column: column_after(x, before.column, expanded),
        })
    }

    // with all of bytes behind the others, if they fit
    pub fn and_all(self, x: Settings, bytes: &[u8]) -> Option<Measure>
        ensures { ExtendsBy x (Some self) bytes.now result }
    {
        let mut measure = self;
        for b in bytes {
            measure = Measure::and(Some(measure), x, *b)?;
        }
        Some(measure)
    }
}
