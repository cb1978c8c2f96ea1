//! The ends in memory piece by piece and with calls that fail, and std's ends once.
use super::{Failed, MemorySink, MemorySource, Sink, Source, StdSink, StdSource, write_all};
use std::io::Cursor;
use std::test::Fail;

fn is_send<T: Send>(_: &T) {}

#[test]
fn a_source_gives_pieces_and_fails_where_told(rt: HostRuntime) -> Result<(), Fail> {
    let alloc = rt.alloc();
    let mut source = MemorySource::new(b"abcdefg".to_vec(alloc)?, 3, [2, 5].to_vec(alloc)?);
    is_send(&source);
    let mut buf = [0; 4];
    let want: [Result<&[u8], Failed>; 6] = [
        Ok(b"abc"),
        Err(Failed),
        Ok(b"def"),
        Ok(b"g"),
        Err(Failed),
        Ok(b""),
    ];
    for (i, piece) in want.iter().enumerate() {
        let n = source.read(&mut buf);
        assert_eq!(rt; n.is_err(), piece.is_err(), "read {i}");
        if let (Ok(n), Ok(bytes)) = (n, piece) {
            assert_eq!(rt; n, bytes.len(), "read {i}");
            assert!(rt; n <= 4);
            assert!(rt; &buf[..n] == *bytes, "read {i}");
        }
    }
    assert_eq!(rt; source.faults(), 2);
    let mut small = MemorySource::new(b"abc".to_vec(alloc)?, 9, vec![in alloc]?);
    let mut one = [0; 1];
    assert_eq!(rt; small.read(&mut one), Ok(1));
    assert_eq!(rt; small.read(&mut []), Ok(0));
    assert_eq!(rt; small.read(&mut buf), Ok(2));
    Ok(())
}

#[test]
fn a_sink_keeps_what_it_took(rt: HostRuntime) -> Result<(), Fail> {
    let alloc = rt.alloc();
    let mut sink = MemorySink::new(alloc, [2].to_vec(alloc)?);
    is_send(&sink);
    assert_eq!(rt; write_all(&mut sink, b"one "), Ok(()));
    assert_eq!(rt; write_all(&mut sink, b"two "), Err(Failed));
    assert_eq!(rt; sink.write(b""), Ok(0));
    assert_eq!(rt; sink.write(b"three"), Ok(5));
    assert!(rt; sink.bytes() == b"one three".as_slice());
    assert_eq!(rt; sink.faults(), 1);
    assert_eq!(rt; sink.starved(), 0);
    Ok(())
}

#[test]
fn std_ends_pass_the_bytes_on(rt: HostRuntime) -> Result<(), Fail> {
    let mut source = StdSource::new(b"ab".as_slice());
    let mut buf = [0; 3];
    assert_eq!(rt; source.read(&mut buf), Ok(2));
    assert!(rt; &buf[..2] == b"ab".as_slice());
    assert_eq!(rt; source.read(&mut buf), Ok(0));
    assert_eq!(rt; source.faults(), 0);
    let mut kept = Vec::new(rt.alloc());
    {
        let mut sink = StdSink::new(&mut kept);
        assert_eq!(rt; write_all(&mut sink, b"abc"), Ok(()));
        assert_eq!(rt; sink.faults(), 0);
    }
    assert!(rt; kept.as_slice() == b"abc".as_slice());
    let mut room = [0; 2];
    let mut full = StdSink::new(Cursor::new(room.as_mut_slice()));
    assert_eq!(rt; write_all(&mut full, b"abc"), Err(Failed));
    assert_eq!(rt; full.faults(), 1);
    Ok(())
}
