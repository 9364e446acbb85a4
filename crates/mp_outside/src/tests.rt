ghost use Rattle.std.specs.Prelude.{◌≡◌, ◌+◌, ◌≤◌, ◌++◌, length, Some, IfOk, IfSome, OnOk, true};
ghost use Rattle.std.specs.Option.{ForSome};

mod disk_shelves;
mod gates;
mod real_streams;

use crate::{
    CalmShelf, CalmSink, CalmSource, Failed, MemShelf, MemSink, Shelf, ShelfAnswer, Sink, Source,
};
use std::alloc::{AllocError, Global};
use std::process::Abort;
use std::test::Fail;

// All that was left, or `None` where a read failed or the source gives too much.
fn read_to_end<S: Source>(alloc: Global, source: &mut S) -> Result<Option<Vec<u8>>, AllocError>
    ensures { ForSome (S.left source.old) (λ bytes. IfOk result (λ all. IfSome all (λ all. all.items ≡ bytes))) }
{
    let mut all = Vec::new(alloc);
    let mut buf = [0u8; 4];
    for _ in 0..u64::MAX {
        match source.read(&mut buf) {
            Ok(0) => return Ok(Some(all)),
            Ok(count) => all.extend_from_slice(&buf[..count])?,
            Err(Failed) => return Ok(None),
        }
    }
    Ok(None)
}

// One read into four dots.
fn read_four<S: Source>(source: &mut S) -> Result<[u8; 4], Failed> {
    let mut buf = *b"....";
    source.read(&mut buf)?;
    Ok(buf)
}

fn copy(alloc: Global, bytes: Vec<u8>) -> Result<Option<Vec<u8>>, AllocError>
    ensures { IfOk result (λ all. IfSome all (λ all. all.items ≡ bytes.items)) }
{
    read_to_end(alloc, &mut CalmSource::new(bytes, 3))
}

// Writes at most once, and flushes.
fn write_and_flush<K: Sink>(sink: &mut K, bytes: &[u8]) -> Result<usize, Failed>
    ensures flushed { OnOk result (K.flushed sink.new ≡ true) }
    ensures told { IfOk result (λ n. n ≡ length bytes.now → ForSome (K.written sink.old) (λ before.
        length before + n ≤ K.room sink.old → K.written sink.new ≡ Some (before ++ bytes.now))) }
{
    let count = sink.write(bytes)?;
    sink.flush()?;
    Ok(count)
}

fn fetch<H: Shelf>(
    alloc: Global,
    shelf: &mut H,
    name: &[u8],
    limit: u64,
) -> Result<Vec<u8>, ShelfAnswer> {
    shelf.fetch(alloc, name, limit)
}

#[test]
fn a_source_in_memory_gives_its_bytes(rt: HostRuntime) -> Result<(), Fail> {
    let alloc = rt.alloc();
    let bytes = b"matrix profile".to_vec(alloc)?;
    let all = copy(alloc, bytes)?.ok_or("a read failed")?;
    assert_eq!(rt; all.as_slice(), b"matrix profile".as_slice());
    Ok(())
}

// Writes twice, within a room of ten bytes.
fn expect_room<K: Sink>(rt: &impl Abort, sink: &mut K) -> Result<(), Failed> {
    assert_eq!(rt; write_and_flush(sink, b"012")?, 3);
    assert_eq!(rt; write_and_flush(sink, b"345")?, 3);
    Ok(())
}

#[test]
fn a_calm_sink_tells_its_bytes(rt: HostRuntime) -> Result<(), Fail> {
    let mut sink = CalmSink::new(rt.alloc(), 10)?;
    assert!(rt; sink.bytes().is_empty());
    expect_room(&rt, &mut sink)?;
    assert_eq!(rt; sink.bytes(), b"012345".as_slice());
    Ok(())
}

#[test]
fn a_sink_in_memory_tells_its_bytes(rt: HostRuntime) -> Result<(), Fail> {
    let mut sink = MemSink::new(rt.alloc(), 10, 3, Vec::new(rt.alloc()))?;
    assert!(rt; sink.bytes().is_empty());
    expect_room(&rt, &mut sink)?;
    assert_eq!(rt; sink.bytes(), b"012345".as_slice());
    Ok(())
}

// Expects a file of three bytes under `a`, and none under `b`.
fn expect_file<R: Abort + AllocGlobal, H: Shelf>(rt: &R, shelf: &mut H) -> Result<(), Fail> {
    let found = fetch(rt.alloc(), shelf, b"a", 3)?;
    assert_eq!(rt; found.as_slice(), b"123".as_slice());
    for (name, answer) in [(b"a", ShelfAnswer::TooLarge), (b"b", ShelfAnswer::Absent)] {
        assert_eq!(rt; fetch(rt.alloc(), shelf, name, 2).err(), Some(answer));
    }
    Ok(())
}

#[test]
fn a_calm_shelf_gives_its_file(rt: HostRuntime) -> Result<(), Fail> {
    let alloc = rt.alloc();
    let mut shelf = CalmShelf::new(alloc);
    shelf.put(b"a".to_vec(alloc)?, b"123".to_vec(alloc)?)?;
    expect_file(&rt, &mut shelf)
}

#[test]
fn a_shelf_in_memory_gives_its_file(rt: HostRuntime) -> Result<(), Fail> {
    let alloc = rt.alloc();
    let mut shelf = MemShelf::new(alloc, Vec::new(alloc));
    shelf.put(b"a".to_vec(alloc)?, b"123".to_vec(alloc)?)?;
    expect_file(&rt, &mut shelf)
}
