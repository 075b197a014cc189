// Document 01, 'Echo': 'REPRINT: its echo, 10, then each unit's echo again', whole or not at all: measured first, then shown.
ghost use Rattle.std.specs.Prelude.{◌≡◌, ◌≤◌, length, leb, Some};
ghost use Rattle.rules.specs.Editing.{units, reprint};
ghost use Rattle.rules.specs.Echo.{edit_echo};
ghost use Rattle.input.specs.Contract.{get, Within};
ghost use Rattle.output.specs.Contract.{Echoes};
ghost use Rattle.output.specs.columns.Contract.{ExtendsBy};
ghost use Rattle.editing.specs.reprinting.Contract.{place_echo, reprinted, needed, MeasuresLine};

use input::{Input, Places};
use output::Output;
use output::columns::Measure;
use rules::Settings;

// what place k shows, behind what is measured, if it fits
fn measured(measure: Measure, x: Settings, places: &Places, k: usize) -> Option<Measure>
    ensures { ExtendsBy x (Some measure) (place_echo x places.now.input places.now.bytes.now places.now.marks.now k) result }
{
    if super::is_shown(places.input, places.marks, k) {
        echo::measured(Some(measure), x, places.input.queue.at(places.bytes, k))
    } else {
        Some(measure)
    }
}

// the echo of b, 10 and what the line shows, measured in so many bytes, if they fit
fn line_measured(o: Output, x: Settings, places: &Places, size: usize, b: u8) -> Option<Measure>
    ensures { MeasuresLine x o places.now.input places.now.bytes.now places.now.marks.now size b result }
{
    let own = echo::measured(Some(o.measure(size)), x, b);
    let mut measure = Measure::and(own, x, 10)?;
    for k in places.input.ready..places.input.queue.len {
        measure = measured(measure, x, places, k)?;
    }
    Some(measure)
}

// whether the echo of b, 10 and what the line shows fit in so many bytes
fn fits(o: Output, x: Settings, places: &Places, size: usize, b: u8) -> bool
    ensures { result ≡ leb (needed x o places.now.input places.now.bytes.now places.now.marks.now size b) size }
{
    line_measured(o, x, places, size, b).is_some()
}

// what place k shows, behind what is queued
fn shown(o: Output, x: Settings, places: &Places, out: &mut [u8], k: usize) -> Output
    ensures { Echoes x o out.old (place_echo x places.now.input places.now.bytes.now places.now.marks.now k) result out.new }
{
    if super::is_shown(places.input, places.marks, k) {
        echo::show(o, x, out, places.input.queue.at(places.bytes, k))
    } else {
        o.fit(out.len())
    }
}

// the echo of b, 10 and what the line shows, for which there is room
fn shown_line(o: Output, x: Settings, places: &Places, out: &mut [u8], b: u8) -> Output
    requires { needed x o places.now.input places.now.bytes.now places.now.marks.now (length out.old) b ≤ length out.old }
    ensures { Echoes x o out.old (reprinted x places.now.input places.now.bytes.now places.now.marks.now b places.now.input.queue.len) result out.new }
{
    let mut shows = echo::show_line(o, x, out, b);
    for k in places.input.ready..places.input.queue.len {
        shows = shown(shows, x, places, out, k);
    }
    shows
}

// 'REPRINT: its echo, 10, then each unit's echo again.'
pub fn of_reprinted(
    o: Output,
    x: Settings,
    i: Input,
    bytes: &[u8],
    marks: &[u8],
    out: &mut [u8],
    b: u8,
) -> Output
    requires bytes_len { length bytes.now ≡ length marks.now }
    requires within { Within i (length marks.now) }
    ensures { Echoes x o out.old (edit_echo x reprint b 0 (units (get i bytes.now marks.now).current)) result out.new }
{
    let n = out.len();
    let places = Places {
        input: i,
        bytes,
        marks,
    };
    if x.echo && fits(o, x, &places, n, b) {
        shown_line(o, x, &places, out, b)
    } else {
        o.fit(n)
    }
}
