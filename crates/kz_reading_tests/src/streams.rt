//! Sources and sinks, over memory and over std's readers and writers, which fail at chosen calls.
use kz_text::{
    Failed, InputFault, Line, MemorySink, MemorySource, Source, StdSink, StdSource, read_all,
    tokens, write_whole,
};
use std::io;
use std::io::{ErrorKind, Read, Write};
use std::test::Fail;

#[test]
fn a_reader_is_read_to_its_end(rt: HostRuntime) -> Result<(), Fail> {
    let text = b"one\ntwo";
    let mut source = StdSource::new(text.as_slice());
    let bytes = read_all(rt.alloc(), &mut source, 7)?;
    assert_eq!(rt; bytes.as_slice(), b"one\ntwo".as_slice());
    let mut longer = StdSource::new(text.as_slice());
    let refused = read_all(rt.alloc(), &mut longer, 6);
    assert!(rt; matches!(refused, Err(InputFault::TooLong { limit: 6 })));
    Ok(())
}

#[test]
fn a_source_fails_at_the_chosen_call(rt: HostRuntime) -> Result<(), Fail> {
    let bytes = [10, 20, 30].to_vec(rt.alloc())?;
    let mut source = MemorySource::new(bytes, 1, [1].to_vec(rt.alloc())?);
    let fault = read_all(rt.alloc(), &mut source, 9);
    assert!(rt; matches!(fault, Err(InputFault::ReadFault)));
    // The call after the failing one gives the byte after the first: there was no other call.
    let mut next = [0, 0];
    assert_eq!(rt; source.read(&mut next), Ok(1));
    assert_eq!(rt; next, [20, 0]);
    let rest = read_all(rt.alloc(), &mut source, 9)?;
    assert_eq!(rt; rest.as_slice(), [30].as_slice());
    Ok(())
}

#[test]
fn a_sink_takes_its_room_in_steps(rt: HostRuntime) -> Result<(), Fail> {
    let mut sink = MemorySink::new(rt.alloc(), 5, 2, Vec::new(rt.alloc()))?;
    assert_eq!(rt; write_whole(&mut sink, b"abc"), Ok(()));
    assert_eq!(rt; write_whole(&mut sink, b"def"), Err(Failed));
    assert_eq!(rt; sink.taken(), b"abcde".as_slice());
    let mut failing = MemorySink::new(rt.alloc(), 5, 1, [2].to_vec(rt.alloc())?)?;
    assert_eq!(rt; write_whole(&mut failing, b"abc"), Err(Failed));
    assert_eq!(rt; failing.taken(), b"ab".as_slice());
    Ok(())
}

#[test]
fn a_writer_is_written_to(rt: HostRuntime) -> Result<(), Fail> {
    let mut bytes = Vec::new(rt.alloc());
    let mut sink = StdSink::new(&mut bytes);
    assert_eq!(rt; write_whole(&mut sink, b"text"), Ok(()));
    drop(sink);
    assert_eq!(rt; bytes.as_slice(), b"text".as_slice());
    Ok(())
}

// A reader and writer that fails at its second call, and counts how often it was flushed.
#[derive(Drop)]
struct Flaky {
    calls: u32,
    flushes: u32,
}

impl Flaky {
    fn call(&mut self) -> io::Result<usize> {
        self.calls = self.calls.saturating_add(1);
        if self.calls == 2 {
            return Err(ErrorKind::Other.into());
        }
        Ok(1)
    }
}

impl Read for Flaky {
    fn read(&mut self, into: &mut [u8]) -> io::Result<usize> {
        Ok(self.call()?.min(into.len()))
    }
}

impl Write for Flaky {
    fn write(&mut self, from: &[u8]) -> io::Result<usize> {
        Ok(self.call()?.min(from.len()))
    }

    fn flush(&mut self) -> io::Result<()> {
        self.flushes = self.flushes.saturating_add(1);
        Ok(())
    }
}

#[test]
fn faults_of_std_are_failures(rt: HostRuntime) {
    let mut reader = Flaky {
        calls: 0,
        flushes: 0,
    };
    let mut source = StdSource::new(&mut reader);
    let fault = read_all(rt.alloc(), &mut source, 9);
    assert!(rt; matches!(fault, Err(InputFault::ReadFault)));
    drop(source);
    assert_eq!(rt; reader.calls, 2);
    let mut writer = Flaky {
        calls: 0,
        flushes: 0,
    };
    let mut sink = StdSink::new(&mut writer);
    assert_eq!(rt; write_whole(&mut sink, b"abc"), Err(Failed));
    drop(sink);
    assert_eq!(rt; writer.flushes, 1);
}

#[test]
fn a_line_is_cut_at_its_spaces(rt: HostRuntime) -> Result<(), Fail> {
    let line = Line {
        number: 7,
        text: b"w  2f",
    };
    let tokens = tokens(rt.alloc(), &line)?;
    assert_eq!(rt; tokens.len(), 3);
    assert_eq!(rt; (tokens[1].from, tokens[1].to), (2, 2));
    assert_eq!(rt; (tokens[2].line, tokens[2].from, tokens[2].to), (7, 3, 5));
    Ok(())
}
