use crate::{
    Failed, Journal, MemSink, MemStore, ReadFault, Sink, StdSink, StdStore, Store, WriteFault,
};
use std::alloc::{Allocator, Global};
use std::cell::Cell;
use std::fmt::Display;
use std::fs::{Metadata, OpenFile, OpenOptions};
use std::io::{ErrorKind, Read, Seek, SeekFrom, Write};
use std::rt::Files;
use std::test::Fail;
use std::{env, fs, io, process};

// Through the bounds: the file under one name goes to another name and out.
fn copy<S: Store, K: Sink>(
    alloc: Global,
    store: &mut S,
    out: &mut K,
    from: &str,
    to: &str,
) -> Result<(), Fail> {
    let bytes = store.read(alloc, from, 100)?;
    store.write(alloc, to, bytes.as_slice())?;
    out.put(bytes.as_slice())?;
    Ok(())
}

fn read_fault<S: Store>(store: &mut S, alloc: Global, name: &str, limit: u32) -> Option<ReadFault> {
    store.read(alloc, name, u64::from(limit)).err()
}

#[test]
fn a_store_in_memory_holds_what_is_added_and_written(rt: HostRuntime) -> Result<(), Fail> {
    let alloc = rt.alloc();
    let mut store = MemStore::new(alloc, Vec::new(alloc));
    let mut out = MemSink::new(alloc, Vec::new(alloc), 3)?;
    store.add("a", &[9])?;
    store.add("a", &[1, 2, 3])?;
    copy(alloc, &mut store, &mut out, "a", "b")?;
    assert_eq!(rt; store.get("b").ok_or("held")?, [1, 2, 3].as_slice());
    assert_eq!(rt; out.written(), [1, 2, 3].as_slice());
    assert!(rt; store.get("c").is_none());
    assert_eq!(rt; store.read(alloc, "c", 9).err(), Some(ReadFault::Missing));
    assert_eq!(rt; store.read(alloc, "a", 3)?.as_slice(), [1, 2, 3].as_slice());
    assert_eq!(rt;
        store.read(alloc, "a", 2).err(),
        Some(ReadFault::Long { seen: 3 })
    );
    Ok(())
}

#[test]
fn a_journal_tells_the_calls_of_its_store(rt: HostRuntime) -> Result<(), Fail> {
    let alloc = rt.alloc();
    let mut store = MemStore::new(alloc, Vec::new(alloc));
    store.add("a", &[1])?;
    let mut journal = Journal::new(alloc, store);
    let read = journal.read(alloc, "a", 3)?;
    journal.write(alloc, "b", read.as_slice())?;
    assert_eq!(rt; journal.read(alloc, "b", 3)?.as_slice(), [1].as_slice());
    assert_eq!(rt; journal.calls().len(), 3);
    Ok(())
}

#[test]
fn a_store_of_the_system_reads_what_it_wrote(rt: HostRuntime) -> Result<(), Fail> {
    let alloc = rt.alloc();
    let temp = env::temp_dir(&rt)?;
    let number = process::id(rt.process());
    let name = format!(in alloc; "{}/redn_outside_{}", temp.as_str(), number)?;
    let bytes = vec![in alloc; 7; 20_000]?;
    let mut store = StdStore::new(&rt);
    store.write(alloc, name.as_str(), bytes.as_slice())?;
    let whole = store.read(alloc, name.as_str(), 20_000)?;
    let refused = read_fault(&mut store, alloc, name.as_str(), 19_999);
    store.write(alloc, name.as_str(), &[])?;
    let emptied = store.read(alloc, name.as_str(), 0)?;
    fs::remove_file(&rt, name.as_str())?;
    assert_eq!(rt; whole.as_slice(), bytes.as_slice());
    assert_eq!(rt; refused, Some(ReadFault::Long { seen: 20_000 }));
    assert_eq!(rt; emptied.len(), 0);
    Ok(())
}

// Files of the system, read and written three bytes a call at most.
#[derive(Drop)]
struct Pieces {
    rt: HostRuntime,
}

#[derive(Drop)]
struct Piece {
    file: <HostRuntime as Files>::File,
}

impl Read for Piece {
    fn read(&mut self, buf: &mut [u8]) -> io::Result<usize> {
        let most = buf.len().min(3);
        self.file.read(&mut buf[..most])
    }
}

impl Write for Piece {
    fn write(&mut self, buf: &[u8]) -> io::Result<usize> {
        self.file.write(&buf[..buf.len().min(3)])
    }

    fn flush(&mut self) -> io::Result<()> {
        self.file.flush()
    }
}

impl Seek for Piece {
    fn seek(&mut self, to: SeekFrom) -> io::Result<u64> {
        self.file.seek(to)
    }
}

impl OpenFile for Piece {
    fn metadata(&self) -> io::Result<Metadata> {
        self.file.metadata()
    }

    fn set_len(&self, size: u64) -> io::Result<()> {
        self.file.set_len(size)
    }

    fn sync_all(&self) -> io::Result<()> {
        self.file.sync_all()
    }

    fn sync_data(&self) -> io::Result<()> {
        self.file.sync_data()
    }
}

impl Files for Pieces {
    type File = Piece;

    type Dir = <HostRuntime as Files>::Dir;

    fn open_file(&self, how: &OpenOptions, path: &str) -> io::Result<Piece> {
        let file = self.rt.open_file(how, path)?;
        Ok(Piece { file })
    }

    fn open_dir(&self, path: &str) -> io::Result<<HostRuntime as Files>::Dir> {
        self.rt.open_dir(path)
    }

    fn metadata(&self, path: &str) -> io::Result<Metadata> {
        Files::metadata(&self.rt, path)
    }

    fn symlink_metadata(&self, path: &str) -> io::Result<Metadata> {
        self.rt.symlink_metadata(path)
    }

    fn copy(&self, from: &str, to: &str) -> io::Result<u64> {
        self.rt.copy(from, to)
    }

    fn rename(&self, from: &str, to: &str) -> io::Result<()> {
        self.rt.rename(from, to)
    }

    fn remove_file(&self, path: &str) -> io::Result<()> {
        self.rt.remove_file(path)
    }

    fn create_dir(&self, path: &str) -> io::Result<()> {
        self.rt.create_dir(path)
    }

    fn remove_dir(&self, path: &str) -> io::Result<()> {
        self.rt.remove_dir(path)
    }

    fn remove_dir_all<B: Allocator>(&self, alloc: B, path: &str) -> io::Result<()> {
        self.rt.remove_dir_all(alloc, path)
    }
}

#[test]
fn short_pieces_are_put_together(rt: HostRuntime) -> Result<(), Fail> {
    let alloc = rt.alloc();
    let temp = env::temp_dir(&rt)?;
    let number = process::id(rt.process());
    let name = format!(in alloc; "{}/redn_outside_pieces_{}", temp.as_str(), number)?;
    let pieces = Pieces { rt };
    for bytes in [b"".as_slice(), b"a", b"abc", b"abcdefgh"] {
        let mut store = StdStore::new(&pieces);
        store.write(alloc, name.as_str(), bytes)?;
        let whole = store.read(alloc, name.as_str(), 8)?;
        assert_eq!(pieces.rt; whole.as_slice(), bytes);
    }
    fs::remove_file(&pieces, name.as_str())?;
    Ok(())
}

// A file without end, one that is not there, one below a file, and a folder.
#[test]
fn a_store_of_the_system_names_its_faults(rt: HostRuntime) {
    let mut store = StdStore::new(&rt);
    let reads = [
        ("/dev/zero", ReadFault::Long { seen: 10_001 }),
        ("/no folder of this name/file", ReadFault::Missing),
        ("/dev/null/file", ReadFault::Failed),
        ("/dev", ReadFault::Failed),
    ];
    for (name, fault) in reads {
        let answer = read_fault(&mut store, rt.alloc(), name, 10_000);
        assert_eq!(rt; answer, Some(fault), "at {name}");
    }
    for name in ["/no folder of this name/file", "/dev/null/file", "/dev"] {
        let answer = store.write(rt.alloc(), name, &[1]).err();
        assert_eq!(rt; answer, Some(WriteFault::Failed), "at {name}");
    }
}

#[test]
fn a_sink_of_the_system_prints(rt: HostRuntime) {
    let mut sink = StdSink::new(&rt);
    assert_eq!(rt; sink.put(b"a piece\n"), Ok(()));
    assert_eq!(rt; sink.put(b""), Ok(()));
}

// Standard output that takes two bytes a call, and from the third call on none or fails.
#[derive(Drop)]
struct Stops {
    calls: Cell<u64>,
    fails: bool,
}

impl Print for Stops {
    fn print<D: Display + Drop>(&self, _value: D) -> io::Result<()> {
        Ok(())
    }

    fn println<D: Display + Drop>(&self, _value: D) -> io::Result<()> {
        Ok(())
    }

    fn write_all(&self, _bytes: &[u8]) -> io::Result<()> {
        Ok(())
    }

    fn write_some(&self, bytes: &[u8]) -> io::Result<usize> {
        self.calls.set(self.calls.get().saturating_add(1));
        if self.calls.get() < 3 {
            Ok(bytes.len().min(2))
        } else if self.fails {
            Err(io::Error::from(ErrorKind::Interrupted))
        } else {
            Ok(0)
        }
    }
}

#[test]
fn a_put_that_stops_in_mid_piece_is_a_fault(rt: HostRuntime) {
    for fails in [false, true] {
        let out = Stops {
            calls: Cell::new(0),
            fails,
        };
        let mut sink = StdSink::new(&out);
        assert_eq!(rt; sink.put(b"abcd"), Ok(()));
        assert_eq!(rt; sink.put(b"e"), Err(Failed));
        assert_eq!(rt; sink.put(b""), Ok(()));
    }
}
