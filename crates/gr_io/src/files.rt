// Sources and sinks over files and standard output, the trusted edge. They tell no bytes: no
// contract can say what the system keeps of a file.
ghost use Rattle.std.specs.Prelude.{◌≡◌, ◌<◌, ◌≤◌, ◌+◌, ◌^◌, ℕ, List, Option, None, length, IfOk, IfErr, OnOk, OnErr, is_err};
ghost use Rattle.gr_io.specs.Files.{IsCounted};
ghost use Rattle.gr_io.specs.Pieces.{Rose};

use crate::sinks::{Sink, SinkError};
use crate::sources::{Source, SourceError};
use std::fs;
use std::io::{self, Read, Write};
use std::marker::Model;
use std::rt::Files;

/// Reads a file, which is opened at the first read. A contract sees how many bytes were taken and how
/// many reads failed. Behind 2^64 - 1 bytes, which no file has, each read fails.
#[derive(Drop)]
pub struct FileSource<R: Files + Drop> {
    rt: R,
    path: String,
    file: Option<R::File>,
    taken: u64,
    faults: u64,
}

impl<R: Files + Drop> Model for FileSource<R> {
    ghost use Rattle.gr_io.specs.Files.{FileRead};

    ghost Value = { FileRead };

    ghost view = { λ s. record { taken = s.taken; faults = s.faults } };
}

impl<R: Files + Drop> FileSource<R> {
    /// A source of the file at this path. Nothing is opened yet.
    pub fn new(rt: R, path: String) -> FileSource<R>
        ensures { result ≡ record { taken = 0; faults = 0 } }
    {
        FileSource {
            rt,
            path,
            file: None,
            taken: 0,
            faults: 0,
        }
    }

    /// Opens the file where that was not done yet, and reads from it once.
    fn read_file(&mut self, buf: &mut [u8]) -> io::Result<usize>
        ensures within { IfOk result (λ n. n ≤ length buf.new) }
        ensures room { IfOk result (λ n. self.old.taken + n < 2 ^ 64) }
        ensures same { self.new ≡ self.old }
    {
        let room = u64::MAX - self.taken;
        if room == 0 {
            return Err(io::Error::from(io::ErrorKind::FileTooLarge));
        }
        if self.file.is_none() {
            self.file = Some(fs::open(&self.rt, self.path.as_str())?);
        }
        let most = buf.len().min(room as usize);
        match &mut self.file {
            Some(file) => file.read(&mut buf[..most]),
            None => Ok(0),
        }
    }
}

impl<R: Files + Drop> Source for FileSource<R> {
    ghost left = { λ s. None };

    ghost taken = { λ s. s.taken };

    ghost faults = { λ s. s.faults };

    fn read(&mut self, buf: &mut [u8]) -> Result<usize, SourceError>
        ensures within { IfOk result (λ n. n ≤ length buf.new) }
        ensures counts { IfOk result (λ n. self.new.taken ≡ self.old.taken + n) }
        ensures none { OnErr result (self.new.taken ≡ self.old.taken) }
        ensures only_fault { IfErr result (λ e. e ≡ SourceError.Fault) }
        ensures fault { OnErr result (Rose self.old.faults self.new.faults) }
        ensures calm { OnOk result (self.new.faults ≡ self.old.faults) }
        ensures grows { self.old.faults ≤ self.new.faults }
    {
        let read = self.read_file(buf);
        match count_read(read, &mut self.faults) {
            Ok(count) => {
                self.taken += count as u64;
                Ok(count)
            }
            Err(failed) => Err(failed),
        }
    }
}

/// What a source answers to a read: a fault, which is counted, exactly where the read failed.
fn count_read(read: io::Result<usize>, faults: &mut u64) -> Result<usize, SourceError>
    ensures told { is_err result ≡ is_err read }
    ensures count { IfOk result (λ n. IfOk read (λ m. n ≡ m)) }
    ensures only_fault { IfErr result (λ e. e ≡ SourceError.Fault) }
    ensures fault { OnErr result (Rose faults.old faults.new) }
    ensures calm { OnOk result (faults.new ≡ faults.old) }
    ensures grows { faults.old ≤ faults.new }
{
    match read {
        Ok(count) => Ok(count),
        Err(_) => {
            *faults = faults.saturating_add(1);
            Err(SourceError::Fault)
        }
    }
}

/// Writes a file, which is created or emptied at the first write of a piece that is not empty. A
/// contract sees how many writes failed.
#[derive(Drop)]
pub struct FileSink<R: Files + Drop> {
    rt: R,
    path: String,
    file: Option<R::File>,
    faults: u64,
}

impl<R: Files + Drop> Model for FileSink<R> {
    ghost use Rattle.std.specs.Prelude.{ℕ};

    ghost Value = { ℕ };

    ghost view = { λ s. s.faults };
}

impl<R: Files + Drop> FileSink<R> {
    /// A sink to the file at this path. Nothing is opened yet.
    pub fn new(rt: R, path: String) -> FileSink<R>
        ensures { result ≡ 0 }
    {
        FileSink {
            rt,
            path,
            file: None,
            faults: 0,
        }
    }

    /// Creates the file where that was not done yet, and writes the whole piece to it.
    fn write_file(&mut self, piece: &[u8]) -> io::Result<()>
        ensures { self.new ≡ self.old }
    {
        if self.file.is_none() {
            self.file = Some(fs::create(&self.rt, self.path.as_str())?);
        }
        match &mut self.file {
            Some(file) => file.write_all(piece),
            None => Ok(()),
        }
    }
}

#[tactic(auto, using(crate::proofs::Parts::part_untold))]
impl<R: Files + Drop> Sink for FileSink<R> {
    ghost written = { λ s. None };

    ghost faults = { λ s. s };

    fn write(&mut self, piece: &[u8]) -> Result<(), SinkError>
        ensures { IsCounted result self.old self.new }
    {
        if piece.is_empty() {
            return Ok(());
        }
        let written = self.write_file(piece);
        count_write(written, &mut self.faults)
    }
}

/// What a sink answers to a write: a fault, which is counted, exactly where the write failed.
fn count_write(written: io::Result<()>, faults: &mut u64) -> Result<(), SinkError>
    ensures told { is_err result ≡ is_err written }
    ensures counted { IsCounted result faults.old faults.new }
{
    match written {
        Ok(()) => Ok(()),
        Err(_) => {
            *faults = faults.saturating_add(1);
            Err(SinkError::Fault)
        }
    }
}

/// Writes to standard output, through to the system at each write. A contract sees how many writes
/// failed.
#[derive(Drop)]
pub struct OutSink<R: Print + Drop> {
    rt: R,
    faults: u64,
}

impl<R: Print + Drop> Model for OutSink<R> {
    ghost use Rattle.std.specs.Prelude.{ℕ};

    ghost Value = { ℕ };

    ghost view = { λ s. s.faults };
}

impl<R: Print + Drop> OutSink<R> {
    /// A sink to the standard output of this runtime.
    pub fn new(rt: R) -> OutSink<R>
        ensures { result ≡ 0 }
    {
        OutSink { rt, faults: 0 }
    }
}

#[tactic(auto, using(crate::proofs::Parts::part_untold))]
impl<R: Print + Drop> Sink for OutSink<R> {
    ghost written = { λ s. None };

    ghost faults = { λ s. s };

    fn write(&mut self, piece: &[u8]) -> Result<(), SinkError>
        ensures { IsCounted result self.old self.new }
    {
        if piece.is_empty() {
            return Ok(());
        }
        let written = self.rt.write_all(piece);
        count_write(written, &mut self.faults)
    }
}

#[cfg(test)]
mod tests {
    use super::*;
    use std::test::Fail;

    #[test]
    fn a_file_is_written_and_read(rt: HostRuntime) -> Result<(), Fail> {
        let alloc = rt.alloc();
        let path = "gr_io_written.tmp";
        let mut sink = FileSink::new(rt, String::from_str(alloc, path)?);
        sink.write(b"")?;
        assert!(rt;
            fs::metadata(&rt, path).is_err(),
            "an empty piece makes no file"
        );
        sink.write(b"p cnf 1 1\n")?;
        sink.write(b"1 0\n")?;
        let mut source = FileSource::new(rt, String::from_str(alloc, path)?);
        let mut buf = [0u8; 32];
        assert_eq!(rt; source.read(&mut buf)?, 14);
        assert_eq!(rt; &buf[..14], b"p cnf 1 1\n1 0\n".as_slice());
        assert_eq!(rt; source.read(&mut buf)?, 0, "the end");
        assert_eq!(rt; sink.faults, 0);
        assert_eq!(rt; source.faults, 0);

        let mut again = FileSink::new(rt, String::from_str(alloc, path)?);
        again.write(b"c\n")?;
        let mut source = FileSource::new(rt, String::from_str(alloc, path)?);
        assert_eq!(rt;
            source.read(&mut buf)?,
            2,
            "the first write empties the file"
        );
        fs::remove_file(&rt, path)?;
        Ok(())
    }

    #[test]
    fn each_failed_read_is_counted(rt: HostRuntime) -> Result<(), Fail> {
        let mut source = FileSource::new(rt, String::from_str(rt.alloc(), "no/such/file")?);
        let mut buf = [0u8; 8];
        for count in 1..3u64 {
            assert_eq!(rt;
                source.read(&mut buf),
                Err(SourceError::Fault),
                "read {count}"
            );
            assert_eq!(rt; source.faults, count);
        }
        Ok(())
    }

    #[test]
    fn each_failed_write_is_counted(rt: HostRuntime) -> Result<(), Fail> {
        for path in ["/dev/full", "no/such/folder/file"] {
            let mut sink = FileSink::new(rt, String::from_str(rt.alloc(), path)?);
            for count in 1..3u64 {
                assert_eq!(rt;
                    sink.write(b"a"),
                    Err(SinkError::Fault),
                    "write {count} to {path}"
                );
                assert_eq!(rt; sink.faults, count);
            }
            assert_eq!(rt; sink.write(b""), Ok(()), "an empty piece to {path}");
        }
        Ok(())
    }

    #[test]
    fn standard_output_is_written(rt: HostRuntime) -> Result<(), Fail> {
        let mut sink = OutSink::new(rt);
        assert_eq!(rt; sink.write(b"written by a test\n"), Ok(()));
        assert_eq!(rt; sink.write(b""), Ok(()));
        assert_eq!(rt; sink.faults, 0);
        Ok(())
    }
}
