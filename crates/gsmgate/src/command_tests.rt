// A script that `make` writes, and `simulate` over it.
use crate::offline::run_offline;
use crate::tests::words_of;
use gate_io::{MemorySink, MemorySource};
use gate_notes::Status;
use std::alloc::Global;
use std::test::Fail;

// Whether the script that `make` writes runs to the summary that it tells.
fn runs_to_its_summary(alloc: Global) -> Result<bool, Fail> {
    let make = words_of(alloc, "make 7 1000 4 out")?;
    let simulate = words_of(alloc, "simulate in out")?;
    let mut script = MemorySink::new(alloc, 50000, &[])?;
    let mut summary = MemorySink::new(alloc, 1000, &[])?;
    let mut output = MemorySink::new(alloc, 50000, &[])?;
    let mut notes = MemorySink::new(alloc, 50000, &[])?;
    let mut inputs: Vec<MemorySource> = Vec::new(alloc);
    let made = run_offline(alloc, &make, &mut inputs, &mut script, &mut summary);
    inputs.push(MemorySource::new(alloc, script.octets(), 1000, &[])?)?;
    let ran = run_offline(alloc, &simulate, &mut inputs, &mut output, &mut notes);
    Ok(made == Status::Done && ran == Status::Done && notes.octets().ends_with(summary.octets()))
}

#[test]
fn a_made_script_runs_to_its_own_summary(rt: HostRuntime) -> Result<(), Fail> {
    assert!(rt; runs_to_its_summary(rt.alloc())?);
    Ok(())
}
