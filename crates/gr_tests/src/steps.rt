use gr_script::{Act, Form, Script, Step, read};
use std::alloc::Global;
use std::process::Abort;
use std::test::Fail;

const HEADING: &str = "georep 1\nregion /r\nmembers 1 1\nshards 1\nclient 1 at 1\nclient 2 at 1\n";

fn script(alloc: Global) -> Result<Script, Fail> {
    let mut text = HEADING.as_bytes().to_vec(alloc)?;
    text.extend_from_slice(b"1 get a\n2 get a\n1 peek a\n1 fetch q\n")?;
    Ok(read(alloc, &text, Form::Replay)?)
}

fn is_at(act: &Act, place: usize) -> bool {
    match act {
        Act::Call(_) => place == 0,
        Act::Peek(_) => place == 1,
        Act::Query(_) => place == 2,
    }
}

fn are_in_order(rt: &impl Abort, steps: &[Step]) {
    for (place, step) in steps.iter().enumerate() {
        assert!(rt; step.seq as usize == place + 1);
        assert!(rt; is_at(&step.act, place));
    }
}

fn counts(rt: &impl Abort, alloc: Global, script: &Script) -> Result<(usize, usize), Fail> {
    let steps = script.steps(alloc, 1)?;
    are_in_order(rt, steps.as_slice());
    Ok((steps.len(), script.steps(alloc, 2)?.len()))
}

// The first client's steps are its first, third and fourth line, the second client's the second.
#[test]
fn a_client_has_its_own_steps(rt: HostRuntime) -> Result<(), Fail> {
    let script = script(rt.alloc())?;
    assert_eq!(rt; counts(&rt, rt.alloc(), &script)?, (3, 1));
    Ok(())
}
