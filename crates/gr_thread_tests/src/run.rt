// Scripts whose report is the same in whatever order threads take their steps.
use gr_report::report;
use gr_runner::run;
use gr_script::{Form, read};
use gr_session::FreeGate;
use std::alloc::Global;
use std::sync::Wait;
use std::test::Fail;
use std::thread::Threads;

// The report of a run of the script.
fn report_of<R: Threads + Wait + Sync>(rt: &R, alloc: Global, script: &[u8]) -> Option<Vec<u8>> {
    let Ok(script) = read(alloc, script, Form::Run) else {
        return None;
    };
    let Ok(record) = run(rt, alloc, &script, &FreeGate) else {
        return None;
    };
    report(alloc, &record, false).ok()
}

// Clients of two members put entries of their own; and a client whose member joins waits for that, so that its
// changes come to all members, and once.
#[test]
fn a_run_takes_in_every_change_everywhere(rt: HostRuntime) -> Result<(), Fail> {
    let cases = [
        (
            "georep 1\nregion /r\nmembers 2 2\nshards 2\nclient 1 at 1\nclient 2 at 2\n1 put o1 {}\n2 put o2 {}\n",
            "replies\n1.1 null\n2.1 null\nregions\n\
             member 1 entries 2 tombstones 0 conflated 0 repeats 0\no1 {} 1.1.1\no2 {} 1.2.1\n\
             member 2 entries 2 tombstones 0 conflated 0 repeats 0\no1 {} 1.1.1\no2 {} 1.2.1\nend\n",
        ),
        (
            "georep 1\nregion /r\nmembers 3 2\nshards 2\nclient 1 at 3\njoin 3 2\n1 put o1 {}\n1 putIfAbsent o1 {}\n",
            "replies\n1.1 null\n1.2 {}\nregions\n\
             member 1 entries 1 tombstones 0 conflated 0 repeats 0\no1 {} 1.3.1\n\
             member 2 entries 1 tombstones 0 conflated 0 repeats 0\no1 {} 1.3.1\n\
             member 3 entries 1 tombstones 0 conflated 0 repeats 0\no1 {} 1.3.1\nend\n",
        ),
    ];
    for (script, wanted) in cases {
        let Some(text) = report_of(&rt, rt.alloc(), script.as_bytes()) else {
            panic!(rt; "no report")
        };
        assert!(rt; text.as_slice() == wanted.as_bytes());
    }
    Ok(())
}
