use gr_io::{MemorySink, MemorySource};
use gr_main::answer;
use gr_top::{StdArguments, given_words};
use std::alloc::Global;
use std::env::{Env, FillError};
use std::io::Eprint;
use std::process::{ExitCode, Termination};
use std::sync::Wait;
use std::test::Fail;
use std::thread::Threads;

/// A process with these arguments.
#[derive(Drop)]
struct Given<'a> {
    arguments: &'a [&'a [u8]],
}

impl<'a> Env for Given<'a> {
    fn arg(&self, i: usize, buf: &mut [u8]) -> Result<usize, FillError> {
        let Some(argument) = self.arguments.get(i) else {
            return Err(FillError::NotPresent);
        };
        if argument.len() > buf.len() {
            return Err(FillError::TooLong);
        }
        buf[..argument.len()].copy_from_slice(argument);
        Ok(argument.len())
    }

    fn var(&self, _name: &str, _buf: &mut [u8]) -> Result<usize, FillError> {
        Err(FillError::NotPresent)
    }

    fn var_at(&self, _i: usize, _buf: &mut [u8]) -> Result<usize, FillError> {
        Err(FillError::NotPresent)
    }
}

#[test]
fn gives_each_word_at_its_place(rt: HostRuntime) -> Result<(), Fail> {
    let arguments: [&[u8]; 4] = [b"georep", b"replay", b"\xff", &[b'w'; 600]];
    let given = Given {
        arguments: &arguments,
    };
    let words = given_words(rt.alloc(), &StdArguments::new(&given))
        .ok()
        .ok_or("memory")?;
    assert_eq!(rt; words.len(), 3);
    assert_eq!(rt; words[0].as_str(), "replay");
    assert_eq!(rt; words[1].as_str(), "");
    assert_eq!(rt; words[2].as_bytes(), [b'w'; 600].as_slice());
    Ok(())
}

const SCRIPT: &str = "georep 1\nregion /r\nmembers 1 1\nshards 1\nclient 1 at 1\n1 get a\n";

const REPORT: &str = "replies\n1.1 null\nregions\n\
    member 1 entries 0 tombstones 0 conflated 0 repeats 0\n\
    histories\nhistory 1 0 1\ncall 1.1 get a -> null\nend\n";

/// What a run left: its status, its output and its message.
#[derive(Drop)]
struct Left {
    status: ExitCode,
    output: MemorySink,
    message: MemorySink,
}

fn sink_in_memory(alloc: Global) -> Result<MemorySink, Fail> {
    Ok(
        MemorySink::new(alloc, 4096, 5, Vec::new(alloc))
            .ok()
            .ok_or("memory")?,
    )
}

// Runs the program over these arguments and the script.
fn run_in_memory<R: Eprint + Threads + Wait + Sync>(
    rt: &R,
    alloc: Global,
    arguments: &[&[u8]],
) -> Result<Left, Fail> {
    let given = Given { arguments };
    let mut source = MemorySource::new(SCRIPT.as_bytes().to_vec(alloc)?, 3, Vec::new(alloc));
    let mut output = sink_in_memory(alloc)?;
    let mut message = sink_in_memory(alloc)?;
    let ended = answer(
        rt,
        alloc,
        &StdArguments::new(&given),
        &mut source,
        &mut output,
        &mut message,
    );
    Ok(Left {
        status: ended.report(rt),
        output,
        message,
    })
}

#[test]
fn answers_all_words_over_streams_in_memory(rt: HostRuntime) -> Result<(), Fail> {
    let understood: [&[u8]; 3] = [b"georep", b"replay", b"--history"];
    let left = run_in_memory(&rt, rt.alloc(), &understood)?;
    assert!(rt; left.status == ExitCode::from(0));
    assert_eq!(rt; left.output.held(), REPORT.as_bytes());
    assert_eq!(rt; left.message.held(), b"".as_slice());
    let another: [&[u8]; 3] = [b"georep", b"replay", b"--later"];
    let left = run_in_memory(&rt, rt.alloc(), &another)?;
    assert!(rt; left.status == ExitCode::from(2));
    assert_eq!(rt; left.output.held(), b"".as_slice());
    assert_eq!(rt;
        left.message.held(),
        b"georep: word 2 isn't understood\n".as_slice()
    );
    Ok(())
}
