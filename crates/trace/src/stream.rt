// Document 01, 'The trace program': where its stream of records stands, the next bytes taken in, a line as soon as its record is
// complete, and what is printed at its end; on an input that comes in pieces, or is there as a whole.
ghost use Rattle.std.specs.Prelude.{◌≡◌, length};
ghost use Rattle.records.specs.lines.Puts.{Prints};
ghost use Rattle.trace.specs.stream.Contract.{beginning, left, TakesIn, Feeds};
ghost use Rattle.rules.specs.Trace.{trace};
ghost use Rattle.trace.specs.Numbers.{most_kept};

use super::gathering;
use port::Port;
use records::lines;

// A port, the next record's index, how many bytes of that record have come, and whether all is done.
#[derive(Clone, Copy)]
pub struct Stream {
    pub port: Port,
    pub index: usize,
    pub have: usize,
    pub done: bool,
}

// What bytes of a piece come to: nothing, since all is done or there are none; `full`, with the length of its line; so many are used, and
// so many of a record that is open have come; or so many are used, and with them a record is complete, and is to be carried out.
#[derive(Clone, Copy)]
enum Taken {
    Nothing,
    Full { length: usize },
    Open { used: usize, have: usize },
    Complete { used: usize },
}

impl Stream {
    // 'two-byte length of the body, two-byte kind'
    pub const HEADER: usize = 4;

    // as much of a body as is kept: one of more than 512 bytes is malformed whatever it holds
    pub const BODY: usize = records::MOST_WRITTEN + 1;

    // header and body as far as they are kept
    pub const KEPT: usize = Stream::HEADER + Stream::BODY;

    // 'At most 65,535 records are read'
    pub const MOST: usize = 65535;

    // no line is longer: three numbers of 5 digits, `allowed`, 2,048 bytes in hex, four spaces, a newline
    pub const LINE: usize = 4123;

    pub fn start() -> Stream
        ensures { result ≡ beginning }
    {
        Stream {
            port: Port::fresh(),
            index: 0,
            have: 0, // nothing has come
            done: false,
        }
    }
}

// what the next bytes of the input come to, up to the end of a record
fn take_in(stream: Stream, kept: &mut [u8; Stream::KEPT], piece: &[u8], line: &mut [u8]) -> Taken
    ensures { TakesIn stream kept.old piece.now line.old result kept.new line.new }
{
    if stream.done || piece.is_empty() {
        return Taken::Nothing;
    }
    if stream.index >= Stream::MOST { // 'At most 65,535 records are read'
        let length = lines::put_full(line, stream.index);
        return Taken::Full { length };
    }
    let begun = gathering::begun(kept, stream.have);
    let used = gathering::gather(kept, begun, piece);
    let have = begun + used;
    if gathering::is_open(kept, have) {
        Taken::Open { used, have }
    } else {
        Taken::Complete { used }
    }
}

// the input is at its end: 'A cut last record prints its index and `cut`.' The second clause says what the type of kept says.
pub fn finish(stream: Stream, kept: &[u8; Stream::KEPT], line: &mut [u8]) -> usize
    ensures prints { Prints line.old (left stream kept.now) result line.new }
    ensures kept_len { length kept.now ≡ most_kept }
{
    if stream.done || gathering::begun(kept, stream.have) == 0 {
        return 0;
    }
    if stream.index >= Stream::MOST { // 'one more, even cut, prints its index and `full`'
        return lines::put_full(line, stream.index);
    }
    lines::put_cut(line, stream.index)
}

// The stream after a piece, how many bytes of the piece it used, and the length of the line printed for them.
#[derive(Clone, Copy)]
pub struct Fed {
    pub stream: Stream,
    pub used: usize,
    pub length: usize,
}

// the next bytes of the input, up to the end of a record
pub fn feed(
    stream: Stream,
    bytes: &mut [u8],
    marks: &mut [u8],
    out: &mut [u8],
    kept: &mut [u8; Stream::KEPT],
    piece: &[u8],
    line: &mut [u8],
) -> Fed
    ensures { Feeds stream bytes.old marks.old out.old kept.old piece.now line.old result bytes.new marks.new out.new kept.new line.new }
{
    match take_in(stream, kept, piece, line) {
        Taken::Nothing => Fed {
            stream,
            used: piece.len(),
            length: 0,
        },
        Taken::Full { length } => Fed {
            stream: Stream {
                have: 0,
                done: true,
                ..stream
            },
            used: piece.len(),
            length,
        },
        Taken::Open { used, have } => Fed {
            stream: Stream { have, ..stream },
            used,
            length: 0,
        },
        Taken::Complete { used } => {
            let kind = gathering::kind_of(kept);
            let body = &kept[Stream::HEADER..gathering::end_of(kept)];
            let recorded = super::record(
                stream.port,
                bytes,
                marks,
                out,
                stream.index,
                kind,
                body,
                line,
            );
            Fed {
                stream: Stream {
                    port: recorded.port,
                    index: stream.index + 1,
                    have: 0,
                    done: false,
                },
                used,
                length: recorded.length,
            }
        }
    }
}

// the lines of the whole input from a fresh port, as much of them as dst holds
pub fn whole(input: &[u8], dst: &mut [u8]) -> usize
    ensures { Prints dst.old (trace input.now) result dst.new }
{
    let mut bytes = [0u8; Port::INPUT];
    let mut marks = [0u8; Port::INPUT];
    let mut out = [0u8; Port::OUTPUT];
    let mut kept = [0u8; Stream::KEPT];
    let mut stream = Stream::start();
    let mut rest = input;
    let mut written = 0;
    while !rest.is_empty() {
        let fed = feed(
            stream,
            &mut bytes,
            &mut marks,
            &mut out,
            &mut kept,
            rest,
            &mut dst[written..],
        );
        stream = fed.stream;
        rest = &rest[fed.used..];
        written += fed.length;
    }
    written + finish(stream, &kept, &mut dst[written..])
}
