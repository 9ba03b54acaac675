//! Readers and writers of std as a source and a sink.
ghost use Rattle.std.specs.Prelude.{◌≡◌, ◌<◌, ◌≤◌, false, length, take, IfOk, OnOk, OnErr};
ghost use Rattle.std.specs.Io.{ReadsAtMost};
ghost use Rattle.std.specs.Io.KnownBytes.{ReadConsumes, Appends};
ghost use Rattle.kz_text.specs.Streams.{Rose, one_more, AppendsFront};

use crate::{Failed, Sink, Source};
use std::io::{Read, Write};

/// A reader as a source. Each fault of the reader is one fault of the source.
#[derive(Drop)]
pub struct StdSource<R: Read> {
    from: R,
    faults: u64,
}

impl<R: Read> StdSource<R> {
    pub fn new(from: R) -> StdSource<R>
        ensures rest { ⟦<StdSource<R> as Source>⟧.rest result ≡ R.remaining from }
        ensures faults { ⟦<StdSource<R> as Source>⟧.faults result ≡ 0 }
        ensures unsure { ⟦<StdSource<R> as Source>⟧.is_sure result ≡ false }
    {
        StdSource { from, faults: 0 }
    }
}

impl<R: Read> Source for StdSource<R> {
    ghost rest = { λ s. R.remaining s.from };

    ghost faults = { λ s. s.faults };

    ghost is_sure = { λ _. false };

    fn read(&mut self, into: &mut [u8]) -> Result<usize, Failed>
        requires { 0 < length into.old }
        ensures bound { ReadsAtMost result into.new }
        ensures bytes { ReadConsumes (⟦<StdSource<R> as Source>⟧.rest self.old)
            (⟦<StdSource<R> as Source>⟧.rest self.new) result into.new }
        ensures later { ⟦<StdSource<R> as Source>⟧.faults self.old ≤ ⟦<StdSource<R> as Source>⟧.faults self.new }
        ensures cause { OnErr result
            (Rose (⟦<StdSource<R> as Source>⟧.faults self.old) (⟦<StdSource<R> as Source>⟧.faults self.new)) }

        // The count rises exactly at a failure.
        ensures given { OnOk result (⟦<StdSource<R> as Source>⟧.faults self.new
            ≡ ⟦<StdSource<R> as Source>⟧.faults self.old) }
        ensures failed { OnErr result (⟦<StdSource<R> as Source>⟧.faults self.new
            ≡ one_more (⟦<StdSource<R> as Source>⟧.faults self.old)) }
    {
        match self.from.read(into) {
            Ok(count) => Ok(count),
            Err(_) => {
                self.faults = self.faults.saturating_add(1);
                Err(Failed)
            }
        }
    }
}

/// A writer as a sink. Each write is flushed. Each fault of the writer, and each write that takes
/// nothing, is one fault of the sink.
#[derive(Drop)]
pub struct StdSink<W: Write> {
    to: W,
    faults: u64,
}

impl<W: Write> StdSink<W> {
    pub fn new(to: W) -> StdSink<W>
        ensures taken { ⟦<StdSink<W> as Sink>⟧.taken result ≡ W.contents to }
        ensures faults { ⟦<StdSink<W> as Sink>⟧.faults result ≡ 0 }
        ensures unsure { ⟦<StdSink<W> as Sink>⟧.sure_room result ≡ 0 }
    {
        StdSink { to, faults: 0 }
    }
}

impl<W: Write> Sink for StdSink<W> {
    ghost taken = { λ s. W.contents s.to };

    ghost faults = { λ s. s.faults };

    ghost sure_room = { λ _. 0 };

    fn write(&mut self, from: &[u8]) -> Result<usize, Failed>
        requires { 0 < length from.now }

        ensures some { IfOk result (λ n. 0 < n) }
        ensures bound { IfOk result (λ n. n ≤ length from.now) }
        ensures ok { IfOk result (λ n. Appends (⟦<StdSink<W> as Sink>⟧.taken self.old)
            (⟦<StdSink<W> as Sink>⟧.taken self.new) (take n from.now)) }
        ensures err { OnErr result
            (AppendsFront (⟦<StdSink<W> as Sink>⟧.taken self.old) (⟦<StdSink<W> as Sink>⟧.taken self.new) from.now) }
        ensures later { ⟦<StdSink<W> as Sink>⟧.faults self.old ≤ ⟦<StdSink<W> as Sink>⟧.faults self.new }
        ensures cause { OnErr result
            (Rose (⟦<StdSink<W> as Sink>⟧.faults self.old) (⟦<StdSink<W> as Sink>⟧.faults self.new)) }

        // The count rises exactly at a failure.
        ensures given { OnOk result (⟦<StdSink<W> as Sink>⟧.faults self.new ≡ ⟦<StdSink<W> as Sink>⟧.faults self.old) }
        ensures failed { OnErr result (⟦<StdSink<W> as Sink>⟧.faults self.new
            ≡ one_more (⟦<StdSink<W> as Sink>⟧.faults self.old)) }
    {
        let written = self.to.write(from);
        match written {
            Ok(count) if count > 0 && self.to.flush().is_ok() => Ok(count),
            _ => {
                self.faults = self.faults.saturating_add(1);
                Err(Failed)
            }
        }
    }
}
