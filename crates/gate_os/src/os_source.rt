// A file that is read.
ghost use Rattle.std.specs.Prelude.{◌≡◌, false, IsErr, IfOk, None};
ghost use Rattle.std.specs.Io.{ReadsAtMost};
ghost use Rattle.std.specs.Io.KnownBytes.{ReadConsumes};
ghost use Rattle.gate_base.specs.Faults.{HasCause};
ghost use Rattle.gate_os.specs.Edges.{FileState, count_after};

use gate_base::{FaultCount, OutOfMemory};
use gate_io::{Failed, Source};
use std::alloc::Global;
use std::fs;
use std::fs::Files;
use std::io::{BufReader, Read};
use std::marker::Model;

/// A file that is read through a buffer of 8192 octets. One that could not be opened fails at each call.
#[derive(Drop)]
pub struct OsSource<R: Files> {
    file: Option<BufReader<R::File>>,
    faults: FaultCount,
}

impl<R: Files> Model for OsSource<R> {
    ghost use Rattle.std.specs.Prelude.{is_some};
    ghost use Rattle.gate_os.specs.Edges.{FileState};

    ghost Value = { FileState };

    ghost view = { λ s. record { is_open = is_some s.file; faults = s.faults } };
}

impl<R: Files> OsSource<R> {
    /// Opens the file at this path. The only error that is answered here is that there is no memory for the buffer.
    pub fn open(rt: &R, alloc: Global, path: &str) -> Result<Self, OutOfMemory>
        ensures { IfOk result (λ s. s.faults ≡ 0) }
    {
        let file = match fs::open(rt, path) {
            Ok(file) => match BufReader::new(alloc, file) {
                Ok(reader) => Some(reader),
                Err(_) => return Err(OutOfMemory),
            },
            Err(_) => None,
        };
        Ok(OsSource {
            file,
            faults: FaultCount::new(),
        })
    }
}

impl<R: Files> Source for OsSource<R> {
    ghost left = { λ s. None };

    ghost faults = { λ s. s.faults };

    /// Takes the next octets. Each call that fails is one fault more, and no other call is.
    fn take(&mut self, into: &mut [u8]) -> Result<usize, Failed>
        ensures within { ReadsAtMost result into.new }
        ensures taken { ReadConsumes None None result into.new }
        ensures cause { HasCause self.old.faults self.new.faults result }

        ensures shut { self.old.is_open ≡ false → IsErr result }
        ensures state { self.new ≡ record self.old { faults = count_after result self.old.faults } }
    {
        if let Some(file) = &mut self.file {
            if let Ok(count) = file.read(into) {
                return Ok(count);
            }
        }
        self.faults.raise();
        Err(Failed)
    }
}

#[cfg(test)]
mod tests {
    use super::*;
    use gate_io::fill;
    use std::test::Fail;

    #[test]
    fn reads_a_file_to_its_end(rt: HostRuntime) -> Result<(), Fail> {
        fs::write(&rt, "source.octets", "gateway")?;
        let mut source = OsSource::open(&rt, rt.alloc(), "source.octets")?;
        let mut piece = [0; 5];
        assert_eq!(rt; fill(&mut source, &mut piece), Ok(5));
        assert_eq!(rt; piece, *b"gatew");
        assert_eq!(rt; fill(&mut source, &mut piece), Ok(2));
        assert_eq!(rt; piece[..2], *b"ay".as_slice());
        assert_eq!(rt; source.take(&mut piece), Ok(0));
        fs::remove_file(&rt, "source.octets")?;
        let mut none = OsSource::open(&rt, rt.alloc(), "source.octets")?;
        assert_eq!(rt; none.take(&mut piece), Err(Failed));
        assert_eq!(rt; none.take(&mut piece), Err(Failed));
        Ok(())
    }
}
