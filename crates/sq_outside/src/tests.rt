use super::*;
use std::test::Fail;
use values_undef::Bytes;

#[test]
fn a_std_reader_is_read_to_its_end(rt: HostRuntime) -> Result<(), Fail> {
    let text = b"abcdef".as_slice();
    for (limit, want) in [(6, Ok(text)), (7, Ok(text)), (5, Err(ReadFault::TooLong))] {
        let mut source = StdSource::new(text);
        let read = read_all(rt.alloc(), &mut source, limit);
        assert_eq!(rt;
            read.as_ref()
                .map(|read| read.bytes.as_slice())
                .map_err(|fault| *fault),
            want,
            "limit {limit}"
        );
    }
    Ok(())
}

#[test]
fn a_full_std_writer_is_a_fault(rt: HostRuntime) -> Result<(), Fail> {
    let mut places = [0u8; 4];
    let mut sink = StdSink::new(&mut places[..]);
    for (text, want) in [(b"abc".as_slice(), Ok(())), (b"de".as_slice(), Err(Failed))] {
        assert_eq!(rt; put_all(&mut sink, text), want);
    }
    assert_eq!(rt; places.as_slice(), b"abcd".as_slice());
    Ok(())
}

#[test]
fn memory_gives_and_takes_pieces(rt: HostRuntime) -> Result<(), Fail> {
    let alloc = rt.alloc();
    let bytes = Bytes {
        bytes: Vec::from_slice(alloc, b"abcdef")?,
    };
    let mut source = MemSource::new(bytes, 4, vec![in alloc; 1]?);
    assert_eq!(rt;
        read_all(alloc, &mut source, 9).is_err(),
        true,
        "call 1 fails"
    );
    let read = read_all(alloc, &mut source, 9).map_err(|_| "no memory")?;
    assert_eq!(rt;
        read.bytes.as_slice(),
        b"ef".as_slice(),
        "four bytes were taken by call 0"
    );

    let mut sink = MemSink::new(alloc, 5, 2, vec![in alloc; 1]?).map_err(|_| "no memory")?;
    assert_eq!(rt; put_all(&mut sink, b"abc"), Err(Failed), "call 1 fails");
    assert_eq!(rt;
        put_all(&mut sink, b"cdef"),
        Err(Failed),
        "the room is full"
    );
    assert_eq!(rt; sink.written(), b"abcde".as_slice());
    Ok(())
}
