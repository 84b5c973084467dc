//! Parts in memory where they take no more, and the parts that keep nothing.

use pl_outside::{
    AdjustKeeper, Failed, KeepError, MemorySink, NoKeeper, NullSink, Sink, Table, write_bytes,
};
use std::test::Fail;

#[test]
fn takes_what_has_room(rt: HostRuntime) -> Result<(), Fail> {
    let alloc = rt.alloc();
    let mut sink = MemorySink::new(alloc, Vec::new(alloc), 3);
    sink.reserve(4)?;
    sink.reserve(6)?;
    for (text, answer, taken) in [
        ("", Ok(()), ""),
        ("01234567", Ok(()), "01234567"),
        ("89a", Err(Failed), "01234567"),
        ("89", Ok(()), "0123456789"),
        ("a", Err(Failed), "0123456789"),
    ] {
        assert_eq!(rt; write_bytes(&mut sink, text.as_bytes()), answer, "{text}");
        assert_eq!(rt; sink.bytes(), taken.as_bytes(), "{text}");
    }
    assert_eq!(rt; NullSink.write(b"0123456789"), Ok(10));
    let mut rows = Vec::new(alloc);
    let refused = NoKeeper::new().load(alloc, "adj.db", Table::Splits, &mut rows);
    assert_eq!(rt; (refused, rows.len()), (Err(KeepError::Failed), 0));
    Ok(())
}
