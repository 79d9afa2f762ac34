// A file that is written, and standard output.
ghost use Rattle.std.specs.Prelude.{◌≡◌, true, false, IsOk, IsErr, IfOk, None};
ghost use Rattle.gate_base.specs.Faults.{HasCause};
ghost use Rattle.gate_io.specs.Flow.{Gives};
ghost use Rattle.gate_os.specs.Edges.{FileState, count_after};

use gate_base::{FaultCount, OutOfMemory};
use gate_io::{Failed, Sink};
use std::alloc::Global;
use std::fs::Files;
use std::io::{Print, Write};
use std::marker::Model;
use std::{fs, io};

// What takes the octets.
#[derive(Drop)]
enum Outlet<'a, R: Files + Print> {
    File(R::File),
    Standard(&'a R),
}

impl<'a, R: Files + Print> Outlet<'a, R> {
    fn write_all(&mut self, from: &[u8]) -> io::Result<()> {
        match self {
            Outlet::File(file) => file.write_all(from),
            Outlet::Standard(rt) => Print::write_all(*rt, from),
        }
    }
}

/// A file that is written, or standard output. Nothing is held back: each piece is written at its call. A file that
/// could not be made fails at each call.
#[derive(Drop)]
pub struct OsSink<'a, R: Files + Print> {
    outlet: Option<Outlet<'a, R>>,
    faults: FaultCount,
}

impl<'a, R: Files + Print> Model for OsSink<'a, R> {
    ghost use Rattle.std.specs.Prelude.{is_some};
    ghost use Rattle.gate_os.specs.Edges.{FileState};

    ghost Value = { FileState };

    ghost view = { λ s. record { is_open = is_some s.outlet; faults = s.faults } };
}

impl<'a, R: Files + Print + Sync> OsSink<'a, R> {
    /// Makes the file at this path, or empties the one that is there. It needs no memory.
    pub fn create(rt: &'a R, _alloc: Global, path: &str) -> Result<Self, OutOfMemory>
        ensures made { IsOk result }
        ensures counted { IfOk result (λ s. s.faults ≡ 0) }
    {
        let outlet = match fs::create(rt, path) {
            Ok(file) => Some(Outlet::File(file)),
            Err(_) => None,
        };
        Ok(OsSink {
            outlet,
            faults: FaultCount::new(),
        })
    }

    /// Standard output.
    pub fn standard(rt: &'a R) -> Self
        ensures { result ≡ record { is_open = true; faults = 0 } }
    {
        OsSink {
            outlet: Some(Outlet::Standard(rt)),
            faults: FaultCount::new(),
        }
    }
}

impl<'a, R: Files + Print> Sink for OsSink<'a, R> {
    ghost given = { λ s. None };

    ghost faults = { λ s. s.faults };

    ghost kin = { λ _ _. Unit {0} };

    /// Writes all of the octets. Each call that fails is one fault more, and no other call is.
    fn give(&mut self, from: &[u8]) -> Result<(), Failed>
        ensures given { Gives None None result from.now }
        ensures cause { HasCause self.old.faults self.new.faults result }

        ensures shut { self.old.is_open ≡ false → IsErr result }
        ensures state { self.new ≡ record self.old { faults = count_after result self.old.faults } }
    {
        if let Some(outlet) = &mut self.outlet {
            if let Ok(()) = outlet.write_all(from) {
                return Ok(());
            }
        }
        self.faults.raise();
        Err(Failed)
    }

    ghost kin_same = { λ s. tt };

    ghost kin_after = { λ a b c p q. tt };
}

#[cfg(test)]
mod tests {
    use super::*;
    use std::test::Fail;

    fn is_send<T: Send>(_: &T) {}

    #[test]
    fn writes_a_file_and_standard_output(rt: HostRuntime) -> Result<(), Fail> {
        fs::write(&rt, "sink.octets", "what stood there before")?;
        let mut sink = OsSink::create(&rt, rt.alloc(), "sink.octets")?;
        is_send(&sink);
        let mut none = OsSink::create(&rt, rt.alloc(), "no-such-folder/sink.octets")?;
        let mut standard = OsSink::standard(&rt);
        assert!(rt;
            sink.give(b"gate") == Ok(())
                && sink.give(b"") == Ok(())
                && sink.give(b"way") == Ok(())
                && none.give(b"lost") == Err(Failed)
                && none.give(b"") == Err(Failed)
                && standard.give(b"written\n") == Ok(())
        );
        assert_eq!(rt; fs::read_to_string(&rt, "sink.octets")?.as_str(), "gateway");
        fs::remove_file(&rt, "sink.octets")?;
        Ok(())
    }
}
