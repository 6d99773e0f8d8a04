ghost use Rattle.std.specs.Prelude.{◌≡◌, IfOk};

use crate::replacing::replacing_mode;
use crate::{
    ErrSink, Failed, FileStore, Gate, MemSink, MemSource, MemStore, NoGate, SaveErr, Sink, Source,
    StdSink, StdSource, Store, StoreErr,
};
use std::alloc::{AllocError, Global};
use std::fs::{self, Permissions};
use std::io::{self, ErrorKind, Read, Write};
use std::os::unix::fs::{PermissionsExt, symlink};
use std::path::PathBuf;
use std::rt::Files;
use std::test::Fail;

// One read of up to four bytes: how many, and the first of them.
fn read_from<S: Source>(source: &mut S) -> Result<(usize, u8), Failed> {
    let mut buf = [b'-'; 4];
    let count = source.read(&mut buf)?;
    Ok((count, buf[0]))
}

fn write_to<S: Sink>(sink: &mut S, piece: &str) -> Result<usize, Failed> {
    sink.write(piece.as_bytes())
}

// The length and the first byte of what a store has under a name.
fn load_from<S: Store>(
    alloc: Global,
    store: &mut S,
    name: &str,
    limit: u64,
) -> Result<(usize, u8), StoreErr> {
    let bytes = store.load(alloc, name, limit)?;
    Ok((bytes.len(), bytes.first().copied().unwrap_or(b'-')))
}

fn pass<G: Gate>(gate: &G) {
    gate.enter(3);
}

#[test]
fn source_gives_a_byte_at_a_time_and_fails_once(rt: HostRuntime) -> Result<(), Fail> {
    let bytes = b"abc".to_vec(rt.alloc())?;
    let mut source = MemSource::new(bytes, 1, vec![in rt.alloc(); 1]?);
    for want in [
        Ok((1, b'a')),
        Err(Failed),
        Ok((1, b'b')),
        Ok((1, b'c')),
        Ok((0, b'-')),
    ] {
        assert!(rt; read_from(&mut source) == want);
    }
    assert!(rt; source.rest().len() == 0);
    Ok(())
}

#[test]
fn sink_fails_its_second_call_and_where_it_is_full(rt: HostRuntime) -> Result<(), Fail> {
    let mut sink = MemSink::new(rt.alloc(), 4, vec![in rt.alloc(); 1]?)?;
    for (piece, want) in [
        ("abc", Ok(3)),
        ("d", Err(Failed)),
        ("ef", Ok(1)),
        ("g", Err(Failed)),
        ("", Ok(0)),
    ] {
        assert!(rt; write_to(&mut sink, piece) == want, "at {piece}");
    }
    assert!(rt; sink.bytes().len() == 4);
    assert!(rt; sink.into_bytes().as_slice() == b"abce".as_slice());
    Ok(())
}

#[test]
fn store_tells_a_missing_name_from_a_failing_call(rt: HostRuntime) -> Result<(), Fail> {
    let mut store = MemStore::new(rt.alloc(), vec![in rt.alloc(); 3, 6]?);
    store.put("a", b"xyz")?;
    store.put("empty", b"")?;
    for (name, limit, want) in [
        ("b", 9, Err(StoreErr::Failed)),
        ("a", 2, Err(StoreErr::TooLong)),
        ("a", 3, Ok((3, b'x'))),
        ("a", 3, Err(StoreErr::Failed)),
        ("empty", 0, Ok((0, b'-'))),
    ] {
        assert!(rt;
            load_from(rt.alloc(), &mut store, name, limit) == want,
            "at {name}"
        );
    }
    for (bytes, want) in [("12", Ok(())), ("3", Err(SaveErr::Failed)), ("45", Ok(()))] {
        assert!(rt;
            store.save(rt.alloc(), bytes, bytes.as_bytes()) == want,
            "at {bytes}"
        );
    }
    assert!(rt; store.save(rt.alloc(), "a", b"") == Ok(()));
    assert!(rt; load_from(rt.alloc(), &mut store, "a", 3) == Ok((0, b'-')));
    for (name, want) in [("a", true), ("12", true), ("3", false), ("45", true)] {
        assert!(rt; store.get(name).is_some() == want, "at {name}");
    }
    Ok(())
}

// What a device was asked.
#[derive(Drop)]
struct Calls {
    moves: u32,
    flushes: u32,
}

// A device that is interrupted at its first call, moves one byte in its second, and then fails in one way.
#[derive(Drop)]
struct Device<'a> {
    calls: &'a mut Calls,
    error: ErrorKind,
}

impl Device<'_> {
    fn turn(&mut self) -> io::Result<usize>
        ensures { IfOk result (λ k. k ≡ 1) }
    {
        let call = self.calls.moves;
        self.calls.moves = call.saturating_add(1);
        match call {
            0 => Err(io::Error::from(ErrorKind::Interrupted)),
            1 => Ok(1),
            _ => Err(io::Error::from(self.error)),
        }
    }
}

impl Read for Device<'_> {
    fn read(&mut self, buf: &mut [u8]) -> io::Result<usize> {
        if buf.is_empty() {
            return Ok(0);
        }
        let count = self.turn()?;
        buf[0] = b'x';
        Ok(count)
    }
}

impl Write for Device<'_> {
    fn write(&mut self, buf: &[u8]) -> io::Result<usize> {
        if buf.is_empty() {
            return Ok(0);
        }
        self.turn()
    }

    fn flush(&mut self) -> io::Result<()> {
        self.calls.flushes = self.calls.flushes.saturating_add(1);
        Ok(())
    }
}

// A sink over a device takes one byte and then fails, and tries no failed call again.
fn writes_once<S: Sink>(sink: &mut S) -> bool {
    write_to(sink, "ab") == Ok(1) && write_to(sink, "b") == Err(Failed)
}

#[test]
fn adapters_try_an_interrupted_call_again_and_no_other(rt: HostRuntime) {
    for error in [
        ErrorKind::Other,
        ErrorKind::BrokenPipe,
        ErrorKind::WouldBlock,
        ErrorKind::UnexpectedEof,
        ErrorKind::TimedOut,
        ErrorKind::WriteZero,
    ] {
        for turn in 0..3 {
            let mut calls = Calls {
                moves: 0,
                flushes: 0,
            };
            let device = Device {
                calls: &mut calls,
                error,
            };
            let flushes = if turn == 0 { 0 } else { 1 };
            let passed = match turn {
                0 => {
                    let mut source = StdSource::new(device);
                    let first = read_from(&mut source);
                    first == Ok((1, b'x')) && read_from(&mut source) == Err(Failed)
                }
                1 => writes_once(&mut StdSink::new(device)),
                _ => writes_once(&mut ErrSink::new(device)),
            };
            assert!(rt; passed, "at adapter {turn}");
            assert!(rt; calls.moves == 3, "at adapter {turn}");
            assert!(rt; calls.flushes == flushes, "at adapter {turn}");
        }
    }
    pass(&NoGate);
}

#[test]
fn adapters_move_bytes_in_order(rt: HostRuntime) -> Result<(), Fail> {
    let mut source = StdSource::new(b"ab".as_slice());
    for want in [Ok((2, b'a')), Ok((0, b'-'))] {
        assert!(rt; read_from(&mut source) == want);
    }
    // A writer that is full takes nothing.
    let mut room = [0u8; 3];
    let mut sink = StdSink::new(room.as_mut_slice());
    for (piece, want) in [("ab", Ok(2)), ("cd", Ok(1)), ("d", Err(Failed))] {
        assert!(rt; write_to(&mut sink, piece) == want, "at {piece}");
    }
    assert!(rt; room.as_slice() == b"abc".as_slice());
    Ok(())
}

// A folder that was not there.
fn fresh_folder(rt: &HostRuntime) -> io::Result<PathBuf> {
    for number in 0..1000 {
        let name = format!(in rt.alloc(); "/tmp/outside_ports-{number}")?;
        match fs::create_dir(rt, name.as_str()) {
            Ok(()) => return Ok(PathBuf::from(name)),
            Err(error) if error.kind() == ErrorKind::AlreadyExists => {}
            Err(error) => return Err(error),
        }
    }
    Err(io::Error::from(ErrorKind::AlreadyExists))
}

// The path of a name in a folder.
fn within(rt: &HostRuntime, folder: &PathBuf, name: &str) -> Result<PathBuf, AllocError> {
    folder.as_path().join(rt.alloc(), name)
}

// How many names a folder has.
fn names_in(rt: &HostRuntime, folder: &PathBuf) -> io::Result<u32> {
    let mut count: u32 = 0;
    for entry in fs::read_dir(rt, folder.as_path())? {
        let _ = entry?;
        count = count.saturating_add(1);
    }
    Ok(count)
}

#[test]
fn files_are_saved_and_loaded(rt: HostRuntime) -> Result<(), Fail> {
    let folder = fresh_folder(&rt)?;
    let long = vec![in rt.alloc(); b'l'; 100_000]?;
    let mut files = FileStore::new(&rt);
    for (name, bytes, want) in [
        ("new", b"12345".as_slice(), Ok(())),
        ("new", long.as_slice(), Ok(())),
        ("new", b"abc".as_slice(), Ok(())),
        ("empty", b"".as_slice(), Ok(())),
        (".", b"abc".as_slice(), Err(SaveErr::Failed)),
        ("missing/new", b"abc".as_slice(), Err(SaveErr::Failed)),
    ] {
        let path = within(&rt, &folder, name)?;
        let path = path.as_path().as_str();
        assert!(rt; files.save(rt.alloc(), path, bytes) == want, "at {name}");
    }
    for (name, limit, want) in [
        ("new", 3, Ok((3, b'a'))),
        ("new", 2, Err(StoreErr::TooLong)),
        ("empty", 0, Ok((0, b'-'))),
        (".", 3, Err(StoreErr::Failed)),
        ("missing", 3, Err(StoreErr::Failed)),
    ] {
        let path = within(&rt, &folder, name)?;
        let path = path.as_path().as_str();
        assert!(rt;
            load_from(rt.alloc(), &mut files, path, limit) == want,
            "at {name}"
        );
    }
    assert!(rt; names_in(&rt, &folder)? == 2);
    fs::remove_dir_all(&rt, folder.as_path())?;
    Ok(())
}

#[test]
fn saving_follows_links_and_keeps_modes(rt: HostRuntime) -> Result<(), Fail> {
    let folder = fresh_folder(&rt)?;
    let real = within(&rt, &folder, "real")?;
    let mut files = FileStore::new(&rt);
    for (link, target) in [
        ("link", "real"),
        ("second", "link"),
        ("dangling", "made"),
        ("loop", "loop"),
    ] {
        symlink(&rt, target, within(&rt, &folder, link)?.as_path())?;
    }
    fs::write(&rt, real.as_path(), b"old".as_slice())?;
    rt.set_permissions(real.as_path().as_str(), Permissions::from_mode(0o640))?;
    for (name, bytes, want) in [
        ("link", "a", Ok(())),
        ("second", "bc", Ok(())),
        ("dangling", "def", Ok(())),
        ("loop", "g", Err(SaveErr::Failed)),
    ] {
        let path = within(&rt, &folder, name)?;
        let path = path.as_path();
        let saved = files.save(rt.alloc(), path.as_str(), bytes.as_bytes());
        assert!(rt; saved == want, "at {name}");
        assert!(rt; fs::symlink_metadata(&rt, path)?.is_symlink(), "at {name}");
    }
    for (name, want) in [("real", Ok((2, b'b'))), ("made", Ok((3, b'd')))] {
        let path = within(&rt, &folder, name)?;
        let path = path.as_path().as_str();
        assert!(rt;
            load_from(rt.alloc(), &mut files, path, 9) == want,
            "at {name}"
        );
    }
    let mode = fs::metadata(&rt, real.as_path())?.permissions().mode();
    assert!(rt; mode & 0o777 == 0o640);
    assert!(rt; names_in(&rt, &folder)? == 6);
    fs::remove_dir_all(&rt, folder.as_path())?;
    Ok(())
}

// A program that is set to run as its file's owner or group does so no more where these are not kept.
#[test]
fn foreign_files_lose_their_set_id_bits(rt: HostRuntime) -> Result<(), Fail> {
    for (mode, owned, want) in [
        (0o100_755, true, 0o100_755),
        (0o104_755, true, 0o104_755),
        (0o106_711, true, 0o106_711),
        (0o100_755, false, 0o100_755),
        (0o104_755, false, 0o100_755),
        (0o102_750, false, 0o100_750),
        (0o107_777, false, 0o101_777),
    ] {
        assert!(rt; replacing_mode(mode, owned) == want, "{mode:#x}");
    }
    let folder = fresh_folder(&rt)?;
    let path = within(&rt, &folder, "own")?;
    fs::write(&rt, path.as_path(), b"old".as_slice())?;
    rt.set_permissions(path.as_path().as_str(), Permissions::from_mode(0o4755))?;
    let mut files = FileStore::new(&rt);
    assert!(rt; files.save(rt.alloc(), path.as_path().as_str(), b"new") == Ok(()));
    let mode = fs::metadata(&rt, path.as_path())?.permissions().mode();
    assert!(rt; mode & 0o7777 == 0o4755);
    fs::remove_dir_all(&rt, folder.as_path())?;
    Ok(())
}
