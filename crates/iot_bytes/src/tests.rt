//! What no clause says: that calls answer otherwise than by want of memory where there is enough.

ghost use Rattle.std.specs.Prelude.{◌≤◌};

use super::*;
use std::alloc::Global;
use std::test::Fail;

fn row_of(alloc: Global, bytes: &[u8]) -> Result<Row<u8>, NoMemory> {
    let mut row = Row::new(alloc);
    row.append(bytes)?;
    Ok(row)
}

fn source_of(alloc: Global, bytes: &[u8], piece: usize) -> Result<MemSource, NoMemory>
    requires { 1 ≤ piece }
{
    let bytes = row_of(alloc, bytes)?;
    Ok(MemSource::new(bytes, piece, Row::new(alloc)))
}

// A source that fails at its first call.
fn failing_source(alloc: Global, bytes: &[u8]) -> Result<MemSource, NoMemory> {
    let mut failing = Row::new(alloc);
    failing.append(&[0])?;
    Ok(MemSource::new(row_of(alloc, bytes)?, 9, failing))
}

fn first_frame(alloc: Global, bytes: &[u8], piece: usize) -> Result<FrameEnd, NoMemory>
    requires { 1 ≤ piece }
{
    let mut source = source_of(alloc, bytes, piece)?;
    Ok(read_frame(alloc, &mut source))
}

fn first_line(alloc: Global, bytes: &[u8], limit: usize) -> Result<LineEnd, NoMemory>
    requires { limit ≤ 5 }
{
    let mut source = source_of(alloc, bytes, 3)?;
    Ok(read_line(alloc, &mut source, limit))
}

fn is_frame(end: FrameEnd, content: &[u8]) -> bool {
    match end {
        FrameEnd::Frame(frame) => frame.as_slice() == content,
        _ => false,
    }
}

fn is_line(end: LineEnd, content: &[u8]) -> bool {
    match end {
        LineEnd::Line(line) => line.as_slice() == content,
        _ => false,
    }
}

#[test]
fn a_row_grows(rt: HostRuntime) -> Result<(), Fail> {
    let mut row = Row::new(rt.alloc());
    assert!(rt; row.push(1).is_ok());
    row.append(&[2, 3])?;
    row.room(10)?;
    assert!(rt; row.spare() >= 10);
    assert!(rt; row.copy(rt.alloc())? == row_of(rt.alloc(), &[1, 2, 3])?);
    Ok(())
}

// Each push takes one of the spare room, and so many pushes succeed.
#[test]
fn a_row_takes_as_many_as_it_has_room_for(rt: HostRuntime) -> Result<(), Fail> {
    let mut row = Reserve::with_room(rt.alloc(), 5)?.into_row();
    let room = row.spare();
    assert!(rt; room >= 5);
    for left in (0..room).rev() {
        assert!(rt; row.push(7).is_ok());
        assert_eq!(rt; row.spare(), left);
    }
    Ok(())
}

#[test]
fn a_row_shrinks(rt: HostRuntime) -> Result<(), Fail> {
    let mut row = Row::from_vec(vec![in rt.alloc(); 7; 3]?);
    assert_eq!(rt; row.set(2, 9), 7);
    assert_eq!(rt; row.remove(1), 7);
    row.cut(1);
    assert_eq!(rt; row.as_slice(), [7].as_slice());
    Ok(())
}

#[test]
fn a_reserve_has_its_room(rt: HostRuntime) -> Result<(), Fail> {
    let Ok(mut held) = Reserve::of_or_back(row_of(rt.alloc(), &[1])?, 3) else {
        return Err("memory ran out".into());
    };
    assert!(rt; held.push(2).is_ok());
    held.append(&[3, 4])?;
    held.room(100)?;
    assert!(rt; held.spare() >= 100);
    assert_eq!(rt; held.into_row().as_slice(), [1, 2, 3, 4].as_slice());
    Ok(())
}

#[test]
fn a_reserve_shrinks(rt: HostRuntime) -> Result<(), Fail> {
    let mut held = Reserve::with_room(rt.alloc(), 3)?;
    held.append(&[7, 7, 8])?;
    assert_eq!(rt; held.set(1, 9), 7);
    assert_eq!(rt; held.remove(0), 7);
    held.cut(1);
    assert_eq!(rt; held.as_slice(), [9].as_slice());
    Ok(())
}

#[test]
fn frames_come_in_any_pieces(rt: HostRuntime) -> Result<(), Fail> {
    for piece in [1, 3, 7] {
        let end = first_frame(rt.alloc(), &[0, 0, 0, 2, 7, 8, 9], piece)?;
        assert!(rt; is_frame(end, &[7, 8]));
    }
    Ok(())
}

#[test]
fn a_frame_is_written_in_place(rt: HostRuntime) -> Result<(), Fail> {
    let mut out = Row::new(rt.alloc());
    begin_frame(&mut out)?;
    out.append(&[7; 0x102])?;
    end_frame(&mut out);
    let bytes = out.as_slice();
    assert_eq!(rt; bytes.get(..5), Some([0, 0, 1, 2, 7].as_slice()));
    assert!(rt; is_frame(first_frame(rt.alloc(), bytes, 100)?, &[7; 0x102]));
    Ok(())
}

#[test]
fn a_frame_cut_after_any_octet_is_torn(rt: HostRuntime) -> Result<(), Fail> {
    let bytes = [0, 0, 0, 2, 7, 8];
    assert!(rt; matches!(first_frame(rt.alloc(), &[], 3)?, FrameEnd::End));
    for len in 1..6 {
        assert!(rt; matches!(first_frame(rt.alloc(), &bytes[..len], 3)?, FrameEnd::Torn));
    }
    Ok(())
}

#[test]
fn a_frame_above_the_limit_is_too_long(rt: HostRuntime) -> Result<(), Fail> {
    let end = first_frame(rt.alloc(), &[0, 4, 0, 1, 7], 9)?;
    assert!(rt; matches!(end, FrameEnd::TooLong(262_145)));
    Ok(())
}

#[test]
fn a_frame_at_the_limit_is_read(rt: HostRuntime) -> Result<(), Fail> {
    let content = vec![in rt.alloc(); 5; 262_144]?;
    let mut bytes = row_of(rt.alloc(), &[0, 4, 0, 0])?;
    bytes.append(&content)?;
    let end = first_frame(rt.alloc(), bytes.as_slice(), 1000)?;
    assert!(rt; is_frame(end, &content));
    Ok(())
}

#[test]
fn lines_end_at_a_break_or_with_the_source(rt: HostRuntime) -> Result<(), Fail> {
    for bytes in [b"ab".as_slice(), b"ab\n", b"ab\ncd"] {
        assert!(rt; is_line(first_line(rt.alloc(), bytes, 2)?, b"ab"));
    }
    assert!(rt; is_line(first_line(rt.alloc(), b"\n", 0)?, b""));
    assert!(rt; matches!(first_line(rt.alloc(), b"", 2)?, LineEnd::End));
    Ok(())
}

#[test]
fn a_line_above_its_limit_is_too_long(rt: HostRuntime) -> Result<(), Fail> {
    for bytes in [b"abc".as_slice(), b"abc\n"] {
        assert!(rt; matches!(first_line(rt.alloc(), bytes, 2)?, LineEnd::TooLong));
    }
    Ok(())
}

#[test]
fn a_line_that_failed_is_read_later(rt: HostRuntime) -> Result<(), Fail> {
    let mut source = failing_source(rt.alloc(), b"ab\ncd")?;
    assert!(rt; matches!(read_line(rt.alloc(), &mut source, 5), LineEnd::ReadFault));
    assert!(rt; is_line(read_line(rt.alloc(), &mut source, 5), b"ab"));
    Ok(())
}

#[test]
fn a_frame_that_failed_is_read_later(rt: HostRuntime) -> Result<(), Fail> {
    let mut source = failing_source(rt.alloc(), &[0, 0, 0, 1, 7])?;
    assert!(rt; matches!(read_frame(rt.alloc(), &mut source), FrameEnd::ReadFault));
    assert!(rt; is_frame(read_frame(rt.alloc(), &mut source), &[7]));
    Ok(())
}

#[test]
fn a_sink_takes_its_room(rt: HostRuntime) -> Result<(), Fail> {
    let mut sink = MemSink::new(rt.alloc(), 20, 3, Row::new(rt.alloc()))?;
    assert_eq!(rt; send(&mut sink, b"twelve bytes"), Ok(()));
    assert_eq!(rt;
        send(&mut sink, b"twelve bytes"),
        Err(WriteFault { sent: 8 })
    );
    assert_eq!(rt; sink.taken(), b"twelve bytestwelve b".as_slice());
    Ok(())
}

#[test]
fn a_reader_of_std_is_a_source(rt: HostRuntime) -> Result<(), Fail> {
    let bytes: &[u8] = b"one\ntwo";
    let mut source = StdSource::new(bytes);
    assert!(rt; is_line(read_line(rt.alloc(), &mut source, 3), b"one"));
    Ok(())
}

#[test]
fn a_writer_of_std_is_a_sink(rt: HostRuntime) -> Result<(), Fail> {
    let mut sink = StdSink::new(Vec::new(rt.alloc()));
    assert_eq!(rt; send(&mut sink, b"three"), Ok(()));
    Ok(())
}

#[test]
fn decimals_are_written(rt: HostRuntime) -> Result<(), Fail> {
    let mut out = Row::new(rt.alloc());
    put_decimal(&mut out, 0)?;
    put_decimal(&mut out, u64::MAX)?;
    assert_eq!(rt; out.as_slice(), b"018446744073709551615".as_slice());
    Ok(())
}

#[test]
fn decimals_are_read(rt: HostRuntime) -> Result<(), Fail> {
    assert_eq!(rt; read_decimal(b"107"), Some(107));
    assert_eq!(rt; read_decimal(b"18446744073709551615"), Some(u64::MAX));
    for token in [
        b"".as_slice(),
        b"007",
        b"+7",
        b"7 ",
        b"\xff",
        b"18446744073709551616",
    ] {
        assert_eq!(rt; read_decimal(token), None);
    }
    Ok(())
}

#[test]
fn tokens_of_a_line(rt: HostRuntime) -> Result<(), Fail> {
    let line = b"up  last";
    assert_eq!(rt; next_token(line, 0), Some((0, 2)));
    assert_eq!(rt; next_token(line, 3), Some((3, 3)));
    assert_eq!(rt; next_token(line, 4), Some((4, 8)));
    assert_eq!(rt; next_token(line, 8), None);
    Ok(())
}

#[test]
fn hexadecimal_digits_are_written(rt: HostRuntime) -> Result<(), Fail> {
    let mut out = row_of(rt.alloc(), b"#")?;
    put_hex(&mut out, &[0x98, 0x44, 0xFE])?;
    assert_eq!(rt; out.as_slice(), b"#9844fe".as_slice());
    Ok(())
}

#[test]
fn hexadecimal_digits_are_read(rt: HostRuntime) -> Result<(), Fail> {
    let octets = read_hex(rt.alloc(), b"9844fE")?;
    assert_eq!(rt; octets.as_slice(), [0x98, 0x44, 0xFE].as_slice());
    for token in [b"984".as_slice(), b"98g4"] {
        assert_eq!(rt;
            read_hex(rt.alloc(), token).err(),
            Some(ReadError::Malformed)
        );
    }
    Ok(())
}
