// Document 01, 'The trace program': the bytes of a record, kept as they come until it is complete.
ghost use Rattle.std.specs.Prelude.{◌≡◌, true, cond, ◌<◌, ◌≤◌, set};
ghost use Rattle.trace.specs.gathering.Contract.{size_of, is_open, kind_of, end_of, Gathers};
ghost use Rattle.trace.specs.Numbers.{most_size};

use super::stream::Stream;

// how many bytes the record has, header and body
fn size(kept: &[u8; Stream::KEPT]) -> usize
    ensures value { result ≡ size_of kept.now }
    ensures upper_bound { result ≤ most_size }
{
    Stream::HEADER + records::two(kept[0], kept[1])
}

// Is a record of which so many bytes have come not yet complete?
pub(crate) fn is_open(kept: &[u8; Stream::KEPT], have: usize) -> bool
    ensures value { result ≡ is_open kept.now have }
    ensures have_lt_most_size { result ≡ true → have < most_size }
{
    have < size(kept)
}

// how many bytes of an incomplete record have come
pub(crate) fn begun(kept: &[u8; Stream::KEPT], have: usize) -> usize
    ensures value { result ≡ cond (is_open kept.now have) have 0 }
    ensures upper_bound { result < most_size }
{
    if is_open(kept, have) { have } else { 0 }
}

// what has no place is not kept
fn keep(kept: &mut [u8; Stream::KEPT], at: usize, b: u8)
    ensures { kept.new ≡ set kept.old at b }
{
    if at < kept.len() {
        kept[at] = b;
    }
}

// bytes of the piece until the record is complete or the piece at its end; how many
pub(crate) fn gather(kept: &mut [u8; Stream::KEPT], have: usize, piece: &[u8]) -> usize
    requires incomplete { is_open kept.old have ≡ true }
    requires have_lt_most_size { have < most_size }
    ensures { Gathers kept.old have piece.now result kept.new }
{
    for (at, &b) in piece.iter().enumerate() {
        if !is_open(kept, have + at) {
            return at;
        }
        if have + at >= Stream::KEPT { // no byte from here on has a place
            return piece.len().min(size(kept) - have);
        }
        keep(kept, have + at, b);
    }
    piece.len()
}

// the kind of a complete record
pub(crate) fn kind_of(kept: &[u8; Stream::KEPT]) -> usize
    ensures { result ≡ kind_of kept.now }
{
    records::two(kept[2], kept[3])
}

// where its body ends, as far as it is kept
pub(crate) fn end_of(kept: &[u8; Stream::KEPT]) -> usize
    ensures { result ≡ end_of kept.now }
{
    Stream::HEADER + records::two(kept[0], kept[1]).min(Stream::BODY)
}
