//! Sources and sinks over memory.
use fort_io::{
    ClearSink, ClearSource, MemSink, MemSource, ReadAll, WriteFault, read_all, write_all,
};
use std::test::Fail;

#[test]
fn reads_on_after_a_fault(rt: HostRuntime) -> Result<(), Fail> {
    let cases: [(&[u64], Result<&[u8], &ReadAll>, Result<&[u8], &ReadAll>); 5] = [
        (&[], Ok(&[1, 2, 3, 4, 5]), Ok(&[])),
        (&[0], Err(&ReadAll::Fault), Ok(&[1, 2, 3, 4, 5])),
        (&[1], Err(&ReadAll::Fault), Ok(&[3, 4, 5])),
        (&[3], Err(&ReadAll::Fault), Ok(&[])),
        (&[1, 2], Err(&ReadAll::Fault), Err(&ReadAll::Fault)),
    ];
    for (fails, first, second) in cases {
        let mut source = MemSource::new(rt.alloc(), &[1, 2, 3, 4, 5], 2, fails)?;
        let got = read_all(rt.alloc(), &mut source, 9);
        assert_eq!(rt; got.as_deref(), first);
        let got = read_all(rt.alloc(), &mut source, 9);
        assert_eq!(rt; got.as_deref(), second);
    }
    Ok(())
}

#[test]
fn reads_up_to_the_limit(rt: HostRuntime) -> Result<(), Fail> {
    let cases: [(&[u8], usize, Result<&[u8], &ReadAll>); 4] = [
        (&[1, 2, 3, 4], 4, Ok(&[1, 2, 3, 4])),
        (&[1, 2, 3, 4, 5], 4, Err(&ReadAll::TooLong)),
        (&[], 0, Ok(&[])),
        (&[1], 0, Err(&ReadAll::TooLong)),
    ];
    for (bytes, limit, want) in cases {
        let mut source = ClearSource::new(rt.alloc(), bytes)?;
        let got = read_all(rt.alloc(), &mut source, limit);
        assert_eq!(rt; got.as_deref(), want);
    }
    Ok(())
}

#[test]
fn writes_a_front_before_a_fault(rt: HostRuntime) -> Result<(), Fail> {
    let cases: [(usize, &[u64], Result<(), WriteFault>, &[u8]); 5] = [
        (3, &[], Ok(()), &[1, 2, 3]),
        (3, &[0], Err(WriteFault), &[]),
        (3, &[1], Err(WriteFault), &[1, 2]),
        (2, &[], Err(WriteFault), &[1, 2]),
        (0, &[], Err(WriteFault), &[]),
    ];
    for (room, fails, want, taken) in cases {
        let mut sink = MemSink::new(rt.alloc(), room, 2, fails)?;
        assert_eq!(rt; write_all(&mut sink, &[1, 2, 3]), want);
        assert_eq!(rt; sink.taken(), taken);
    }
    Ok(())
}

#[test]
fn tells_while_all_fits(rt: HostRuntime) -> Result<(), Fail> {
    let cases: [(&[u8], Option<&[u8]>, Option<&[u8]>); 3] = [
        (&[1, 2], Some(&[1, 2]), Some(&[1, 2, 9])),
        (&[1, 2, 3], Some(&[1, 2, 3]), None),
        (&[1, 2, 3, 4], None, None),
    ];
    for (bytes, first, second) in cases {
        let mut sink = ClearSink::new(rt.alloc(), 3)?;
        assert_eq!(rt; write_all(&mut sink, bytes), Ok(()));
        assert_eq!(rt; sink.taken(), first);
        assert_eq!(rt; write_all(&mut sink, &[9]), Ok(()));
        assert_eq!(rt; sink.taken(), second);
    }
    Ok(())
}
