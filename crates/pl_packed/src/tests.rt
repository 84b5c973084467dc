//! Bars that are packed and read back.

use crate::{UnpackError, pack, packed_head, unpack};
use pl_bars::Bars;
use pl_calendar::Sessions;
use pl_lifetimes::Assets;
use pl_outside::MemorySink;
use std::alloc::Global;
use std::test::Fail;

const SESSIONS: &[u8] = b"2024-01-02\n2024-01-03\n2024-01-04\n";

const ASSETS: &[u8] = b"sid,start,end\n7,2023-01-01,2025-01-01\n9,2023-01-01,2025-01-01\n";

const BARS: &[u8] = b"sid,session,open,high,low,close,volume
9,2024-01-03,1,2.5,,1.75,1000
7,2024-01-02,0,100000000000,0.000001,,
7,2024-01-04,,,,,
";

// How many bytes stand before the bars: the mark, four numbers of days, three of sids and the count.
const HEAD: usize = 40;

// The packed bars.
fn packed(
    alloc: Global,
    sessions: &Sessions,
    assets: &Assets,
    bars: &Bars,
) -> Result<MemorySink, Fail> {
    let head = packed_head(alloc, sessions, assets, bars)?;
    let mut sink = MemorySink::new(alloc, Vec::new(alloc), 0);
    sink.reserve(1000)?;
    pack(&mut sink, &head, bars)?;
    Ok(sink)
}

#[test]
fn reads_what_was_packed(rt: HostRuntime) -> Result<(), Fail> {
    let alloc = rt.alloc();
    let sessions = Sessions::read(alloc, SESSIONS)?;
    let assets = Assets::read(alloc, ASSETS)?;
    let bars = Bars::read(alloc, BARS, &sessions, &assets)?;
    let sink = packed(alloc, &sessions, &assets, &bars)?;
    assert_eq!(rt; sink.bytes().len(), HEAD + 3 * 48 + 48);
    let read = unpack(alloc, sink.bytes(), &sessions, &assets)?;
    assert_eq!(rt; read.len(), bars.len());
    for i in 0..bars.len() {
        if i < read.len() {
            assert!(rt; read.row(i) == bars.row(i), "{i}");
        }
    }
    Ok(())
}

#[test]
fn refuses_what_was_not_packed(rt: HostRuntime) -> Result<(), Fail> {
    let alloc = rt.alloc();
    let sessions = Sessions::read(alloc, SESSIONS)?;
    let assets = Assets::read(alloc, ASSETS)?;
    let bars = Bars::read(alloc, BARS, &sessions, &assets)?;
    let sink = packed(alloc, &sessions, &assets, &bars)?;
    for (at, byte, error) in [
        (0, 0, UnpackError::NotPacked),
        (6, b'2', UnpackError::NotPacked),
        (8, 2, UnpackError::OtherSessions),
        (12, 0, UnpackError::OtherSessions),
        (24, 1, UnpackError::OtherAssets),
        (32, 8, UnpackError::OtherAssets),
        (36, 4, UnpackError::BadLength),
        // a session past the last, a bar of the same place, a column past the last
        (HEAD, 3, UnpackError::BadBar { bar: 1 }),
        (HEAD + 48, 0, UnpackError::BadBar { bar: 2 }),
        (HEAD + 2 * 48 + 4, 2, UnpackError::BadBar { bar: 3 }),
        // an open below 0, and 1.000007 for 1
        (HEAD + 15, 255, UnpackError::BadBar { bar: 1 }),
        (HEAD + 2 * 48 + 8, 71, UnpackError::Damaged),
        (HEAD + 3 * 48, 0, UnpackError::Damaged),
        (HEAD + 3 * 48 + 16, 0, UnpackError::Damaged),
    ] {
        let mut bytes = Vec::from_slice(alloc, sink.bytes())?;
        assert!(rt; at < bytes.len() && bytes[at] != byte, "{at}");
        bytes[at] = byte;
        let read = unpack(alloc, &bytes, &sessions, &assets);
        assert_eq!(rt; read.err(), Some(error), "{at}");
    }
    Ok(())
}

#[test]
fn refuses_other_lengths(rt: HostRuntime) -> Result<(), Fail> {
    let alloc = rt.alloc();
    let sessions = Sessions::read(alloc, SESSIONS)?;
    let assets = Assets::read(alloc, ASSETS)?;
    let bars = Bars::read(alloc, BARS, &sessions, &assets)?;
    let sink = packed(alloc, &sessions, &assets, &bars)?;
    let whole = sink.bytes().len();
    for (length, error) in [
        (0, UnpackError::NotPacked),
        (7, UnpackError::NotPacked),
        (8, UnpackError::OtherSessions),
        (24, UnpackError::OtherAssets),
        (36, UnpackError::BadLength),
        (39, UnpackError::BadLength),
        (40, UnpackError::BadLength),
        (whole.saturating_sub(48), UnpackError::BadLength),
        (whole.saturating_sub(1), UnpackError::BadLength),
        (whole.saturating_add(1), UnpackError::BadLength),
    ] {
        let mut bytes = Vec::from_slice(alloc, sink.bytes())?;
        bytes.push(0)?;
        bytes.truncate(length);
        let read = unpack(alloc, &bytes, &sessions, &assets);
        assert_eq!(rt; read.err(), Some(error), "{length}");
    }
    Ok(())
}

#[test]
fn packs_no_bar(rt: HostRuntime) -> Result<(), Fail> {
    let alloc = rt.alloc();
    let sessions = Sessions::read(alloc, SESSIONS)?;
    let assets = Assets::read(alloc, b"sid,start,end\n")?;
    let text = b"sid,session,open,high,low,close,volume\n";
    let bars = Bars::read(alloc, text, &sessions, &assets)?;
    let sink = packed(alloc, &sessions, &assets, &bars)?;
    let read = unpack(alloc, sink.bytes(), &sessions, &assets)?;
    assert_eq!(rt; read.len(), 0);
    Ok(())
}
