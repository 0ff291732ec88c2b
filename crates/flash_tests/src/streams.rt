//! Calls of sources and sinks, one after the other, each beside what it has to answer.

use afl_base::{Failed, Sink, Source};

/// What a call answers: how many bytes.
pub type Count = Result<usize, Failed>;

/// The number of the first write that answers otherwise than it has to, and its answer.
pub fn first_other_write<S: Sink>(
    sink: &mut S,
    calls: &[(&[u8], Count)],
) -> Option<(usize, Count)> {
    for (i, (bytes, wanted)) in calls.iter().enumerate() {
        let given = write(sink, *bytes);
        if given != *wanted {
            return Some((i, given));
        }
    }
    None
}

/// The number of the first read into two nines that answers otherwise than it has to, its answer, and
/// what stands in their place.
pub fn first_other_read<S: Source>(
    source: &mut S,
    calls: &[(Count, [u8; 2])],
) -> Option<(usize, Count, [u8; 2])> {
    for (i, (wanted, bytes)) in calls.iter().enumerate() {
        let mut into = [9; 2];
        let given = source.read(&mut into);
        if given != *wanted || into != *bytes {
            return Some((i, given, into));
        }
    }
    None
}

/// Writes bytes, where there are some.
pub fn write<S: Sink>(sink: &mut S, bytes: &[u8]) -> Count {
    if bytes.is_empty() {
        return Ok(0);
    }
    sink.write(bytes)
}
