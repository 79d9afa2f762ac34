// The first steps of a ring.
use super::*;
use playout::Call;
use std::test::Fail;

#[test]
fn a_filer_enlists_and_says_a_source(rt: HostRuntime) -> Result<(), Fail> {
    let shape = Shape { filers: 1, g: 2 };
    let mut state = CoreState::opening(rt.alloc(), shape)?;
    let enlist = CoreEvent::Enlist { seat: 0, berth: 0 };
    state.happens(rt.alloc(), shape, &enlist)?;
    let source = CoreEvent::Source { seat: 0, ssrc: 7 };
    state.happens(rt.alloc(), shape, &source)?;
    let said = [Call::SourceCall { ssrc: 7, held: 7 }];
    assert!(rt; state.calls(0) == said.as_slice());
    assert!(rt; state.calls(1).is_empty());
    Ok(())
}
