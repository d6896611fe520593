ghost use Rattle.std.specs.Prelude.{◌≡◌};
ghost use Rattle.papy_io.specs.Activity.{Idle};

use papy_io::{
    FolderDesk, IoFault, MemoryDesk, MemorySink, ReadAllFault, Sink, read_all, write_file,
};
use std::alloc::Global;
use std::fs;
use std::process::Abort;
use std::test::Fail;

/// The file that the test over a real file makes in the folder where it runs.
const FILE: &str = "papy_io-test.tmp";

#[test]
fn a_sink_in_memory_fails_at_the_listed_calls(rt: HostRuntime) -> Result<(), Fail> {
    let failing = [1, 3].to_vec(rt.alloc())?;
    let mut sink = MemorySink::new(rt.alloc(), failing);
    let calls: [(&[u8], Result<(), IoFault>); 5] = [
        (b"ab", Ok(())),
        (b"cd", Err(IoFault::Failed)),
        (b"", Ok(())),
        (b"ef", Err(IoFault::Failed)),
        (b"gh", Ok(())),
    ];
    for (bytes, answer) in calls {
        assert!(rt; sink.write(bytes) == answer);
    }
    assert!(rt; sink.bytes() == b"abgh".as_slice());
    Ok(())
}

/// Reads the file `a`, of three bytes, from a desk whose call of this number fails.
fn read_with_fault(
    alloc: Global,
    name: &[u8],
    fault: u32,
    limit: u32,
) -> Result<Vec<u8>, ReadAllFault> {
    let mut desk = MemoryDesk::new(alloc, [fault].to_vec(alloc)?);
    if desk.put(b"a", b"abc").is_err() {
        return Err(ReadAllFault::OutOfMemory);
    }
    read_all(alloc, &mut desk, name, limit)
}

#[test]
fn a_file_is_read_whole_or_the_fault_is_named(rt: HostRuntime) {
    // The calls of a whole read are: start, a piece, the end, finish.
    let cases: [(&[u8], u32, u32, Result<&[u8], ReadAllFault>); 9] = [
        (b"a", 4, 3, Ok(b"abc")),
        (b"a", 4, u32::MAX, Ok(b"abc")),
        (b"a", 4, 2, Err(ReadAllFault::TooLarge)),
        (b"b", 4, 3, Err(ReadAllFault::ReadFault)),
        (b"a", 0, 3, Err(ReadAllFault::ReadFault)),
        (b"a", 1, 3, Err(ReadAllFault::ReadFault)),
        (b"a", 2, 3, Err(ReadAllFault::ReadFault)),
        (b"a", 3, 3, Err(ReadAllFault::ReadFault)),
        (b"a", 2, 2, Err(ReadAllFault::ReadFault)),
    ];
    for (name, fault, limit, answer) in cases {
        let read = read_with_fault(rt.alloc(), name, fault, limit);
        assert!(rt; is_answer(&read, answer));
    }
}

fn is_answer(read: &Result<Vec<u8>, ReadAllFault>, wanted: Result<&[u8], ReadAllFault>) -> bool {
    match read {
        Ok(bytes) => wanted == Ok(bytes.as_slice()),
        Err(fault) => wanted == Err(*fault),
    }
}

#[test]
fn a_failed_write_leaves_what_the_call_left(rt: HostRuntime) -> Result<(), Fail> {
    // The calls of a whole write are: start, the bytes, finish.
    let cases: [(u32, Result<(), IoFault>, &[u8]); 4] = [
        (3, Ok(()), b"new"),
        (0, Err(IoFault::Failed), b"old"),
        (1, Err(IoFault::Failed), b""),
        (2, Err(IoFault::Failed), b"new"),
    ];
    for (fault, answer, left) in cases {
        let mut desk = MemoryDesk::new(rt.alloc(), [fault].to_vec(rt.alloc())?);
        leaves(&rt, &mut desk, answer, left)?;
    }
    Ok(())
}

// The desk is lent, since its end on each way out of a function would be proved once more.
fn leaves(
    rt: &impl Abort,
    desk: &mut MemoryDesk,
    answer: Result<(), IoFault>,
    left: &[u8],
) -> Result<(), Fail>
    requires { desk.old.busy ≡ Idle }
{
    desk.put(b"a", b"old")?;
    desk.put(b"b", b"other")?;
    assert!(rt; write_file(desk, b"a", b"new") == answer);
    assert!(rt; holds(desk, b"a", left));
    assert!(rt; holds(desk, b"b", b"other"));
    assert!(rt; desk.bytes_of(b"c").is_none());
    Ok(())
}

fn holds(desk: &MemoryDesk, name: &[u8], bytes: &[u8]) -> bool {
    match desk.bytes_of(name) {
        Some(found) => found == bytes,
        None => false,
    }
}

#[test]
fn a_real_file_gives_the_bytes_that_were_written(rt: HostRuntime) -> Result<(), Fail> {
    let mut desk = FolderDesk::over(rt.clone()?, rt.alloc());
    let written = write_file(&mut desk, FILE.as_bytes(), b"bytes");
    let read = read_all(rt.alloc(), &mut desk, FILE.as_bytes(), 5);
    drop(desk);
    assert!(rt; written == Ok(()));
    assert!(rt; is_answer(&read, Ok(b"bytes")));
    fs::remove_file(&rt, FILE)?;
    Ok(())
}
