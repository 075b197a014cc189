// Document 01, 'Editing': how many units WERASE removes, in both ways, and where these begin.
ghost use Rattle.std.specs.Prelude.{◌≡◌, ◌<◌, ◌≤◌, length, Bool};
ghost use Rattle.rules.specs.Editing.{units, blank, trailing, word, one_class, alternate_word, removed, word_erase};
ghost use Rattle.rules.specs.declared.Class.{Class};
ghost use Rattle.input.specs.Contract.{get, Within};
ghost use Rattle.editing.specs.Contract.{Removes};
ghost use Rattle.editing.specs.words.Contract.{unit_class, Answers, places_of, units_of, CutsOf};

use super::{Run, classes};
use input::{Input, Places};
use rules::{Class, Settings};

// the class of the unit from start to end; 'a unit of several bytes is a non-blank of the second class'
fn class_at(places: &Places, start: usize, end: usize) -> Class
    requires { (start < end) × (end ≤ places.now.input.queue.len) }
    ensures { result ≡ unit_class (places_of places.now start end) }
{
    if start + 1 < end {
        Class::Other
    } else {
        classes::class_of(places.input.queue.at(places.bytes, start))
    }
}

// the units before end that pass the test, one after another
fn trailing<F: Fn(Class) -> bool>(places: &Places, end: usize, test: F) -> Run
    requires test { F.IsAlwaysCallable test }
    requires bounds { (places.now.input.ready ≤ end) × (end ≤ places.now.input.queue.len) }
    ensures { (t : Class → Bool) → Answers (F.post test) t → CutsOf places.now end (trailing (λ u. t (unit_class u)) (units_of places.now end)) result }
{
    let mut at = end;
    let mut units = 0;
    while at > places.input.ready {
        let start = super::unit_start(places.input, places.marks, at);
        if !test(class_at(places, start, at)) {
            break;
        }
        at = start;
        units += 1;
    }
    Run { at, units }
}

// 'trailing blanks'
fn blanks(places: &Places) -> Run
    ensures { CutsOf places.now places.now.input.queue.len (trailing blank (units_of places.now places.now.input.queue.len)) result }
{
    trailing(places, places.input.queue.len, |c| c == Class::Blank)
}

// trailing blanks, then the run of non-blanks
fn word(places: &Places) -> Run
    ensures { CutsOf places.now places.now.input.queue.len (word (units_of places.now places.now.input.queue.len)) result }
{
    let blanks = blanks(places);
    let rest = trailing(places, blanks.at, |c| c != Class::Blank);
    Run {
        at: rest.at,
        units: blanks.units + rest.units,
    }
}

// the units before end of one class, that of the last of them: 'letters and underscore or all others'
fn one_class(places: &Places, end: usize) -> Run
    requires { (places.now.input.ready ≤ end) × (end ≤ places.now.input.queue.len) }
    ensures { CutsOf places.now end (one_class (units_of places.now end)) result }
{
    if end <= places.input.ready {
        return Run { at: end, units: 0 };
    }
    let start = super::unit_start(places.input, places.marks, end);
    if class_at(places, start, end) == Class::Letter {
        trailing(places, end, |c| c == Class::Letter)
    } else {
        trailing(places, end, |c| c != Class::Letter && c != Class::Blank)
    }
}

// trailing blanks, one further unit, then the run of one class
fn alternate_word(places: &Places) -> Run
    ensures { CutsOf places.now places.now.input.queue.len (alternate_word (units_of places.now places.now.input.queue.len)) result }
{
    let blanks = blanks(places);
    let further = super::one(places.input, places.marks, blanks.at);
    let rest = one_class(places, further.at);
    Run {
        at: rest.at,
        units: blanks.units + further.units + rest.units,
    }
}

// 'WERASE'; its units by ALTWERASE
pub fn last_word(i: Input, x: Settings, bytes: &[u8], marks: &[u8]) -> Run
    requires bytes_len { length bytes.now ≡ length marks.now }
    requires within { Within i (length marks.now) }
    ensures { Removes i bytes.now marks.now (removed x word_erase (units (get i bytes.now marks.now).current)) result }
{
    let places = Places {
        input: i,
        bytes,
        marks,
    };
    if x.altwerase {
        alternate_word(&places)
    } else {
        word(&places)
    }
}
