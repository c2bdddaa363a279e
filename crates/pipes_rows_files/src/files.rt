// Files, sources and sinks in memory and of the system.
ghost use Rattle.std.specs.Prelude.{◌≡◌};

use pipes_edge::*;
use std::alloc::{AllocError, Global};
use std::fs;
use std::test::Fail;

const TURNS: usize = 100;

// What each read gave, up to the end of the input: its bytes and a bar, or an exclamation mark
// where it failed.
fn reads<S: Source>(alloc: Global, source: &mut S, size: usize) -> Result<Vec<u8>, AllocError>
    ensures { S.name source.new ≡ S.name source.old }
{
    let mut gave = Vec::new(alloc);
    let mut buf = vec![in alloc; 0u8; size]?;
    'turns: for _ in 0..TURNS {
        match source.read(buf.as_mut_slice()) {
            Ok(0) => break,
            Ok(count) => {
                gave.extend_from_slice(&buf[..count])?;
                gave.push(b'|')?;
            }
            Err(Failed) => gave.push(b'!')?,
        }
    }
    Ok(gave)
}

// What each write took, up to the end of the piece: one star a byte and a bar, or an exclamation
// mark where it failed.
fn writes<K: Sink>(alloc: Global, sink: &mut K, piece: &[u8]) -> Result<Vec<u8>, AllocError> {
    let mut took = Vec::new(alloc);
    let mut rest = piece;
    for _ in 0..TURNS {
        if rest.is_empty() {
            break;
        }
        match sink.write(rest) {
            Ok(count) => {
                took.extend_from_slice(vec![in alloc; b'*'; count]?.as_slice())?;
                took.push(b'|')?;
                rest = &rest[count..];
            }
            Err(Failed) => took.push(b'!')?,
        }
    }
    Ok(took)
}

// What the reads of the file with this name give.
fn found<F: Files>(alloc: Global, files: &mut F, name: &str, size: usize) -> Result<Vec<u8>, Fail> {
    let mut source = files.find_src(name)?;
    let gave = reads(alloc, &mut source, size)?;
    files.retire(source);
    Ok(gave)
}

#[test]
fn reads_of_files_in_memory(rt: HostRuntime) -> Result<(), Fail> {
    let alloc = rt.alloc();
    for (size, failing, want) in [
        (3, [].as_slice(), "abc|def|g|"),
        (1, &[], "a|b|c|d|e|f|g|"),
        (7, &[], "abcdefg|"),
        (4096, &[], "abcdefg|"),
        (3, &[2], "abc|!def|g|"),
        (3, &[3, 1], "!abc|!def|g|"),
        (3, &[4], "abc|def|g|!"),
        (3, &[0, 5], "abc|def|g|"),
    ] {
        let mut files = MemFiles::new(alloc);
        files.add("b", b"other")?;
        for call in failing {
            files.fail_at("a", *call)?;
        }
        files.add("a", b"abcdefg")?;
        // Each source counts its own reads.
        for _ in 0..2 {
            let gave = found(alloc, &mut files, "a", size)?;
            assert_eq!(rt; gave.as_slice(), want.as_bytes(), "at {want}");
        }
        let gave = found(alloc, &mut files, "b", 4096)?;
        assert_eq!(rt; gave.as_slice(), b"other|".as_slice());
    }
    Ok(())
}

#[test]
fn files_in_memory_are_put_and_found(rt: HostRuntime) -> Result<(), Fail> {
    let alloc = rt.alloc();
    let mut files = MemFiles::new(alloc);
    assert_eq!(rt; files.find_src("a").err(), Some(FindFault::Missing));
    files.add("a", b"old")?;
    let mut early = files.find_src("a")?;
    files.add("a", b"new")?;
    files.fail_at("a", 1)?;
    assert_eq!(rt;
        reads(alloc, &mut early, 4096)?.as_slice(),
        b"old|".as_slice()
    );
    files.retire(early);
    assert_eq!(rt;
        found(alloc, &mut files, "a", 4096)?.as_slice(),
        b"!new|".as_slice()
    );
    assert_eq!(rt; files.find_src("b").err(), Some(FindFault::Missing));
    Ok(())
}

#[test]
fn reads_of_files_that_never_fail(rt: HostRuntime) -> Result<(), Fail> {
    let alloc = rt.alloc();
    let mut files = SureFiles::new(alloc);
    files.add("a", b"old")?;
    files.add("a", b"abcde")?;
    for (size, want) in [(1, "a|b|c|d|e|"), (3, "abc|de|"), (4096, "abcde|")] {
        let gave = found(alloc, &mut files, "a", size)?;
        assert_eq!(rt; gave.as_slice(), want.as_bytes());
    }
    assert_eq!(rt; files.find_src("b").err(), Some(FindFault::Missing));
    Ok(())
}

#[test]
fn writes_in_memory(rt: HostRuntime) -> Result<(), Fail> {
    let alloc = rt.alloc();
    for (most, failing, want) in [
        (1, [].as_slice(), "*|*|*|*|*|*|*|*|*|*|"),
        (4096, &[], "**********|"),
        (4, &[3], "****|****|!**|"),
        (4, &[2, 1], "!!****|****|**|"),
        (5, &[0, 3], "*****|*****|"),
    ] {
        let mut sink = MemSink::new(alloc, most);
        for call in failing {
            sink.fail_at(*call)?;
        }
        let took = writes(alloc, &mut sink, b"abcdefghij")?;
        assert_eq!(rt; took.as_slice(), want.as_bytes());
        assert_eq!(rt; sink.bytes(), b"abcdefghij".as_slice(), "at {want}");
    }
    Ok(())
}

#[test]
fn writes_to_standard_output(rt: HostRuntime) -> Result<(), Fail> {
    let mut out = HostSink::out(rt.stdout());
    assert_eq!(rt;
        writes(rt.alloc(), &mut out, b"written\n")?.as_slice(),
        b"********|".as_slice()
    );
    assert_eq!(rt; out.write(b""), Ok(0));
    let mut err = HostSink::err(rt.stderr());
    assert_eq!(rt;
        writes(rt.alloc(), &mut err, b"written\n")?.as_slice(),
        b"********|".as_slice()
    );
    NoGate.pass(0);
    Ok(())
}

#[test]
fn reads_of_files_of_the_system(rt: HostRuntime) -> Result<(), Fail> {
    let alloc = rt.alloc();
    fs::write(&rt, "a", "abcdefg")?;
    let mut files = HostFiles::new(rt.clone()?);
    for (size, want) in [(3, "abc|def|g|"), (4096, "abcdefg|")] {
        let gave = found(alloc, &mut files, "a", size)?;
        assert_eq!(rt; gave.as_slice(), want.as_bytes());
    }
    assert_eq!(rt; files.find_src("b").err(), Some(FindFault::Missing));
    assert_eq!(rt; files.find_src("a/b").err(), Some(FindFault::Failed));

    // A folder is found, and its reads fail.
    let mut folder = files.find_src(".")?;
    assert_eq!(rt; folder.read([0].as_mut_slice()), Err(Failed));
    files.retire(folder);
    Ok(())
}
