use afl_base::{Failed, Sink};
use afl_sim::MemSink;
use db_model::{Pool, Refusal, Text, Tuple, Value};
use reply_text::{
    write_all, write_numbers, write_ok, write_projected, write_refusal, write_row, write_rows,
};

// Two numbers, and a text between them.
fn three_values() -> Tuple {
    let mut row = Tuple::new();
    row.push(Value::Number(-32768));
    row.push(Value::Text(Text::new(b"a, b").unwrap_or_default()));
    row.push(Value::Number(140737488355327));
    row
}

// Writes a row, and then the count of rows.
fn write_one_row<K: Sink>(out: &mut K) -> Result<(), Failed> {
    write_row(out, &three_values())?;
    write_rows(out, 1)
}

#[test]
fn a_reply_of_rows_has_a_line_a_row_and_their_number(rt: HostRuntime) {
    let mut room = [0u8; 64];
    let mut out = MemSink::new(&mut room, None);
    assert!(rt; write_one_row(&mut out).is_ok());
    assert!(rt; out.written() == b"-32768,'a, b',140737488355327\nrows 1\n".as_slice());
}

fn write_some_values<K: Sink>(out: &mut K) -> Result<(), Failed> {
    let row = three_values();
    write_projected(out, &[2, 1, 2], &row)?;
    write_projected(out, &[0, 3], &row)
}

#[test]
fn a_row_of_some_values_has_them_in_the_order_of_their_places(rt: HostRuntime) {
    let mut room = [0u8; 64];
    let mut out = MemSink::new(&mut room, None);
    assert!(rt; write_some_values(&mut out).is_ok());
    assert!(rt; out.written() == b"140737488355327,'a, b',140737488355327\n-32768,0\n".as_slice());
}

fn write_three_values<K: Sink>(out: &mut K) -> Result<(), Failed> {
    write_numbers(out, &[Some(0), None, Some(-7)])
}

#[test]
fn an_aggregate_without_a_value_is_a_dash(rt: HostRuntime) {
    let mut room = [0u8; 64];
    let mut out = MemSink::new(&mut room, None);
    assert!(rt; write_three_values(&mut out).is_ok());
    assert!(rt; out.written() == b"0,-,-7\n".as_slice());
}

fn write_four_replies<K: Sink>(out: &mut K) -> Result<(), Failed> {
    let full = Refusal::Full {
        pool: Pool::HashEntries,
        limit: 2048,
    };
    let late = Refusal::NotOrdered { last: -5 };
    write_ok(out)?;
    write_refusal(out, &full)?;
    write_refusal(out, &late)?;
    write_refusal(out, &Refusal::CursorOpen)
}

#[test]
fn replies_follow_one_another(rt: HostRuntime) {
    let mut room = [0u8; 128];
    let mut out = MemSink::new(&mut room, None);
    assert!(rt; write_four_replies(&mut out).is_ok());
    assert!(rt;
        out.written() == b"ok\nno full hashentries 2048\nno ordered -5\nno open\n".as_slice()
    );
}

// Writes a byte, and a line after it.
fn write_byte_and_line<K: Sink>(out: &mut K) -> Result<(), Failed> {
    write_all(out, b"x")?;
    write_numbers(out, &[Some(12), Some(3)])
}

fn fails_in_the_count<K: Sink>(out: &mut K) -> bool {
    write_rows(out, 10).is_err()
}

#[test]
fn a_sink_that_fails_in_mid_stream_has_a_part_of_the_line(rt: HostRuntime) {
    let mut room = [0u8; 64];
    let mut out = MemSink::new(&mut room, Some(3));
    assert!(rt; write_byte_and_line(&mut out).is_err());
    assert!(rt; out.written() == b"x12".as_slice());
    let mut short = [0u8; 5];
    let mut out = MemSink::new(&mut short, None);
    assert!(rt; fails_in_the_count(&mut out));
    assert!(rt; out.written() == b"rows ".as_slice());
}
