use afl_base::{Failed, Sink};
use afl_sim::MemSink;
use buffered_sink::{Buffered, Waiting};
use reply_text::write_all;
use std::marker::{Brand, PhantomData};

// Bytes that differ from their neighbours.
fn numbered() -> [u8; 1200] {
    let mut text = [0; 1200];
    for at in 0..1200usize {
        text[at] = (at % 251) as u8;
    }
    text
}

// Writes the text in pieces of 3 bytes, and hands on twice what waits.
fn write_text<K: Sink>(out: &mut K, waiting: &mut Waiting, text: &[u8]) -> Result<(), Failed> {
    let mut gathered = Buffered {
        out,
        waiting,
        since: PhantomData::<Brand>,
    };
    for piece in text.chunks(3) {
        write_all(&mut gathered, piece)?;
    }
    gathered.flush()?;
    gathered.flush()
}

// Hands a reply on twice. It answers whether the first time alone failed.
fn fails_once<K: Sink>(out: &mut K, waiting: &mut Waiting) -> bool {
    let mut gathered = Buffered {
        out,
        waiting,
        since: PhantomData::<Brand>,
    };
    if write_all(&mut gathered, b"ok\n").is_err() {
        return false;
    }
    gathered.flush().is_err() && gathered.flush().is_ok()
}

#[test]
fn a_short_text_goes_out_in_one_call(rt: HostRuntime) {
    let mut room = [0u8; 8];
    let mut sink = MemSink::new(&mut room, Some(2));
    assert!(rt; write_text(&mut sink, &mut Waiting::new(), b"rows 12\n").is_ok());
    assert!(rt; sink.written() == b"rows 12\n".as_slice());
}

#[test]
fn a_long_text_goes_out_in_buffers_full(rt: HostRuntime) {
    let text = numbered();
    let mut room = [0u8; 1200];
    let mut sink = MemSink::new(&mut room, Some(4));
    assert!(rt; write_text(&mut sink, &mut Waiting::new(), &text).is_ok());
    assert!(rt; sink.written() == text.as_slice());
}

// Whether a sink whose call of this number fails has the text up to a place.
fn holds_up_to(text: &[u8; 1200], fails: u64, held: usize) -> bool {
    let mut room = [0u8; 1200];
    let mut sink = MemSink::new(&mut room, Some(fails));
    write_text(&mut sink, &mut Waiting::new(), text).is_err()
        && held <= 1200
        && sink.written() == &text[..held]
}

#[test]
fn a_fault_leaves_the_buffers_before_it(rt: HostRuntime) {
    let text = numbered();
    for (fails, held) in [(1, 0), (2, 512), (3, 1024)] {
        assert!(rt; holds_up_to(&text, fails, held));
    }
}

#[test]
fn a_sink_may_take_a_part_of_a_buffer(rt: HostRuntime) {
    let text = numbered();
    let mut room = [0u8; 700];
    let mut sink = MemSink::new(&mut room, None);
    assert!(rt; write_text(&mut sink, &mut Waiting::new(), &text).is_err());
    assert!(rt; sink.written().len() == 700);
    assert!(rt; text.starts_with(sink.written()));
}

#[test]
fn what_a_sink_did_not_take_goes_out_later(rt: HostRuntime) {
    let mut room = [0u8; 8];
    let mut sink = MemSink::new(&mut room, Some(1));
    assert!(rt; fails_once(&mut sink, &mut Waiting::new()));
    assert!(rt; sink.written() == b"ok\n".as_slice());
}
