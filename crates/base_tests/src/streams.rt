//! Streams of the system's kind that fail in mid-stream.

use script_io::{Sink, Source, last_line_ends_at_end, lines_end_at_newlines, write_whole};
use std::alloc::Global;
use std::io;
use std_streams::{StdSink, StdSource};

/// A writer that takes a byte a call, and fails one of its calls.
#[derive(Drop)]
struct Drip {
    bytes: Vec<u8>,
    calls: u8,
    fails: u8,
}

impl io::Write for Drip {
    fn write(&mut self, buf: &[u8]) -> io::Result<usize> {
        self.calls = self.calls.saturating_add(1);
        if self.calls == self.fails {
            return Err(io::Error::from(io::ErrorKind::Other));
        }
        let piece = &buf[..buf.len().min(1)];
        match self.bytes.extend_from_slice(piece) {
            Ok(()) => Ok(piece.len()),
            Err(error) => Err(io::Error::from(error)),
        }
    }

    fn flush(&mut self) -> io::Result<()> {
        Ok(())
    }
}

/// Whether a writer that fails the call of this number took so many bytes of `abc` in so many calls.
fn drips(alloc: Global, fails: u8, wanted: &str, calls: u8) -> bool {
    let mut drip = Drip {
        bytes: Vec::new(alloc),
        calls: 0,
        fails,
    };
    let well = is_dripped(&mut drip, wanted, calls);
    drop(drip);
    well
}

/// The same of a writer, which fails exactly where it took fewer bytes.
fn is_dripped(drip: &mut Drip, wanted: &str, calls: u8) -> bool {
    let is_whole = write_whole(&mut StdSink::new(&mut *drip), b"abc").is_ok();
    drip.bytes.as_slice() == wanted.as_bytes()
        && drip.calls == calls
        && is_whole == (wanted.len() == 3)
}

/// A stream that fails its second call, and a writer that takes nothing at the third. It counts its reads or writes, and its flushes.
#[derive(Drop)]
struct Flaky {
    calls: u8,
    flushes: u8,
}

impl io::Read for Flaky {
    fn read(&mut self, buf: &mut [u8]) -> io::Result<usize> {
        self.calls = self.calls.saturating_add(1);
        if self.calls == 2 {
            return Err(io::Error::from(io::ErrorKind::Other));
        }
        Ok(buf.len().min(1))
    }
}

impl io::Write for Flaky {
    fn write(&mut self, buf: &[u8]) -> io::Result<usize> {
        self.calls = self.calls.saturating_add(1);
        if self.calls == 3 {
            return Ok(0);
        }
        Ok(buf.len())
    }

    fn flush(&mut self) -> io::Result<()> {
        self.flushes = self.flushes.saturating_add(1);
        if self.calls == 2 {
            return Err(io::Error::from(io::ErrorKind::Other));
        }
        Ok(())
    }
}

/// Whether so many bytes of the piece go into the sink, or none for a fault.
fn takes<K: Sink>(sink: &mut K, piece: &str, wanted: Option<usize>) -> bool {
    sink.write(piece.as_bytes()).ok() == wanted
}

/// Whether a read of at most four bytes gives so many, or none for a fault.
fn reads<S: Source>(source: &mut S, room: usize, wanted: Option<usize>) -> bool {
    let mut buf = [0; 4];
    source.read(&mut buf[..room.min(4)]).ok() == wanted
}

/// Whether a stream that fails its second call goes on, and was read once in each call.
fn read_goes_on(flaky: &mut Flaky) -> bool {
    let mut source = StdSource::new(&mut *flaky);
    let well = reads(&mut source, 4, Some(1))
        && reads(&mut source, 4, None)
        && reads(&mut source, 4, Some(1));
    drop(source);
    well && flaky.calls == 3
}

/// Whether a writer that fails two calls goes on, was written to once in each call, and flushed where it took something.
fn write_goes_on(flaky: &mut Flaky) -> bool {
    let mut sink = StdSink::new(&mut *flaky);
    let well = takes(&mut sink, "ab", Some(2))
        && takes(&mut sink, "ab", None)
        && takes(&mut sink, "ab", None)
        && takes(&mut sink, "ab", Some(2));
    drop(sink);
    well && flaky.calls == 4 && flaky.flushes == 3
}

/// Whether streams that fail a call go on behind it.
fn go_on(alloc: Global) -> bool {
    drips(alloc, 0, "abc", 3)
        && drips(alloc, 1, "", 1)
        && drips(alloc, 3, "ab", 3)
        && read_goes_on(&mut Flaky {
            calls: 0,
            flushes: 0,
        })
        && write_goes_on(&mut Flaky {
            calls: 0,
            flushes: 0,
        })
}

#[test]
fn streams_go_on(rt: HostRuntime) {
    lines_end_at_newlines();
    last_line_ends_at_end();
    assert!(rt; go_on(rt.alloc()));
    assert!(rt; reads(&mut StdSource::new(rt.stdin()), 0, Some(0)));
    assert!(rt; takes(&mut StdSink::new(rt.stdout()), "ab\n", Some(3)));
}
