// A source over a reader of std, and a sink over a writer.
ghost use Rattle.std.specs.Prelude.{◌≡◌, ◌<◌, ◌^◌};

use crate::counts::fault;
use crate::transfers::write_whole;
use crate::{Failed, Sink, Source};
use std::io::{Read, Write};

/// A source over a reader. It tells no bytes, and each error of the reader is a failure.
#[derive(Drop)]
pub struct FileSource<R> {
    reader: R,
    faults: u64,
    ghost counted: { faults < 2 ^ 64 },
}

impl<R: Read> FileSource<R> {
    ghost use Rattle.host_edge.specs.Moves.{reader_of};

    /// A source over this reader, of which no call has failed.
    pub fn new(reader: R) -> FileSource<R>
        ensures reader { reader_of result ≡ reader }
        ensures faults { ⟦<FileSource<R> as Source>⟧.faults result ≡ 0 }
    {
        FileSource { reader, faults: 0 }
    }
}

impl<R: Read> Source for FileSource<R> {
    ghost use Rattle.std.specs.Prelude.{◌≡◌, ◌<◌, ◌^◌, None, length};
    ghost use Rattle.std.specs.Io.KnownBytes.{ReadConsumes};
    ghost use Rattle.host_edge.specs.Causes.{HasCause};
    ghost use Rattle.host_edge.specs.Moves.{reader_of};
    ghost use Rattle.host_edge.specs.Streams.{Takes};

    ghost left = { λ _. None };

    ghost faults = { λ s. s.faults };

    fn take(&mut self, into: &mut [u8]) -> Result<usize, Failed>
        requires { 0 < length into.old }
        ensures bytes { Takes None None into.old into.new result }
        ensures cause { HasCause self.old.faults self.new.faults result }

        // What comes is what the reader gives, where its bytes are known.
        ensures read { ReadConsumes (R.remaining (reader_of self.old)) (R.remaining (reader_of self.new))
            result into.new }
    {
        match self.reader.read(into) {
            Ok(count) => Ok(count),
            Err(_) => Err(fault(&mut self.faults)),
        }
    }
}

/// A sink over a writer. It tells no bytes, and each error of the writer is a failure, as is a write that takes nothing.
#[derive(Drop)]
pub struct FileSink<W> {
    writer: W,
    faults: u64,
    ghost counted: { faults < 2 ^ 64 },
}

impl<W: Write> FileSink<W> {
    ghost use Rattle.host_edge.specs.Moves.{writer_of};

    /// A sink over this writer, of which no call has failed.
    pub fn new(writer: W) -> FileSink<W>
        ensures writer { writer_of result ≡ writer }
        ensures faults { ⟦<FileSink<W> as Sink>⟧.faults result ≡ 0 }
    {
        FileSink { writer, faults: 0 }
    }
}

impl<W: Write> Sink for FileSink<W> {
    ghost use Rattle.std.specs.Prelude.{None};
    ghost use Rattle.host_edge.specs.Causes.{HasCause};
    ghost use Rattle.host_edge.specs.Moves.{Writes, writer_of};
    ghost use Rattle.host_edge.specs.Streams.{Puts};

    ghost taken = { λ _. None };

    ghost faults = { λ s. s.faults };

    fn put(&mut self, bytes: &[u8]) -> Result<(), Failed>
        ensures bytes { Puts None None bytes.now result }
        ensures cause { HasCause self.old.faults self.new.faults result }

        // What is put is what the writer takes, where its bytes are known.
        ensures written { Writes (W.contents (writer_of self.old)) (W.contents (writer_of self.new))
            bytes.now result }
    {
        match write_whole(&mut self.writer, bytes) {
            Ok(()) => Ok(()),
            Err(_) => Err(fault(&mut self.faults)),
        }
    }
}
