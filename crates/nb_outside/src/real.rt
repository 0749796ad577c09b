ghost use Rattle.std.specs.Prelude.{None, ◌≤◌, length};
ghost use Rattle.std.specs.Option.{IfSome};
ghost use Rattle.nb_outside.specs.Real.{IsNewSource, IsNewSink};

use crate::sink::{Sink, WriteEnd};
use crate::source::{ReadEnd, Source};
use std::io::{ErrorKind, Read, Write};

/// How often a call that a signal interrupts is made again before that counts as a fault.
const MOST_RETRIES: u32 = u32::MAX;

/// How many bytes a read gave, made again if a signal interrupts it. `None` if reading fails.
fn read_retrying<R: Read>(reader: &mut R, into: &mut [u8]) -> Option<usize>
    ensures { IfSome result (λ count. count ≤ length into.old) }
{
    for _ in 0..MOST_RETRIES {
        match reader.read(into) {
            Ok(count) => return Some(count),
            Err(error) if error.kind() == ErrorKind::Interrupted => {}
            Err(_) => return None,
        }
    }
    None
}

/// How many bytes a write took, made again if a signal interrupts it. `None` if writing fails.
fn write_retrying<W: Write>(writer: &mut W, bytes: &[u8]) -> Option<usize>
    ensures { IfSome result (λ count. count ≤ length bytes.now) }
{
    for _ in 0..MOST_RETRIES {
        match writer.write(bytes) {
            Ok(count) => return Some(count),
            Err(error) if error.kind() == ErrorKind::Interrupted => {}
            Err(_) => return None,
        }
    }
    None
}

/// A source over any reader, as standard input. It doesn't tell what it has left. A call that a signal interrupts is made
/// again; a reader that would block, as one set not to wait, has met a fault.
#[derive(Drop)]
pub struct StdSource<R: Read + Drop> {
    reader: R,
    reads: u64,
    faults: u64,
}

impl<R: Read + Drop> StdSource<R> {
    /// A source that reads from this reader.
    pub fn new(reader: R) -> StdSource<R>
        ensures { IsNewSource result }
    {
        StdSource {
            reader,
            reads: 0,
            faults: 0,
        }
    }
}

impl<R: Read + Drop> Source for StdSource<R> {
    ghost faults = { λ source. source.faults };

    ghost reads = { λ source. source.reads };

    ghost left = { λ _. None };

    fn read(&mut self, into: &mut [u8]) -> ReadEnd {
        match read_retrying(&mut self.reader, into) {
            Some(count) => {
                if 0 < count {
                    self.reads = self.reads.saturating_add(1);
                }
                ReadEnd::Bytes(count)
            }
            None => {
                self.faults = self.faults.saturating_add(1);
                ReadEnd::Failed
            }
        }
    }
}

/// A sink over any writer, as standard output. It doesn't tell what was written. A call that a signal interrupts is made
/// again; a writer that would block, as one set not to wait, has met a fault.
#[derive(Drop)]
pub struct StdSink<W: Write + Drop> {
    writer: W,
    faults: u64,
}

impl<W: Write + Drop> StdSink<W> {
    /// A sink that writes to this writer, and doesn't flush it.
    pub fn new(writer: W) -> StdSink<W>
        ensures { IsNewSink result }
    {
        StdSink { writer, faults: 0 }
    }
}

impl<W: Write + Drop> Sink for StdSink<W> {
    ghost faults = { λ sink. sink.faults };

    ghost written = { λ _. None };

    fn write(&mut self, bytes: &[u8]) -> WriteEnd {
        match write_retrying(&mut self.writer, bytes) {
            Some(count) if 0 < count || bytes.is_empty() => WriteEnd::Wrote(count),
            _ => {
                self.faults = self.faults.saturating_add(1);
                WriteEnd::Failed
            }
        }
    }
}

#[cfg(test)]
mod tests {
    use crate::{ReadEnd, Sink, Source, StdSink, StdSource, WriteEnd};
    use std::io::{self, ErrorKind, Read};
    use std::test::Fail;

    // A reader whose first call a signal interrupts.
    #[derive(Drop)]
    struct Interrupted {
        called: bool,
    }

    impl Read for Interrupted {
        fn read(&mut self, into: &mut [u8]) -> io::Result<usize> {
            if self.called {
                return Ok(into.len());
            }
            self.called = true;
            Err(io::Error::from(ErrorKind::Interrupted))
        }
    }

    #[test]
    fn an_interrupted_read_is_made_again(rt: HostRuntime) {
        let mut source = StdSource::new(Interrupted { called: false });
        let mut piece = [0u8; 2];
        assert_eq!(rt; source.read(&mut piece), ReadEnd::Bytes(2));
    }

    #[test]
    fn reads_a_reader_to_its_end(rt: HostRuntime) {
        let bytes = [1u8, 2, 3];
        let mut source = StdSource::new(bytes.as_slice());
        let mut piece = [0u8; 2];
        assert_eq!(rt; source.read(&mut piece), ReadEnd::Bytes(2));
        assert_eq!(rt; source.read(&mut piece), ReadEnd::Bytes(1));
        assert_eq!(rt; source.read(&mut piece), ReadEnd::Bytes(0));
    }

    #[test]
    fn writes_to_a_writer(rt: HostRuntime) -> Result<(), Fail> {
        let mut sink = StdSink::new(Vec::new(rt.alloc()));
        assert_eq!(rt; sink.write(&[1u8, 2]), WriteEnd::Wrote(2));
        Ok(())
    }
}
