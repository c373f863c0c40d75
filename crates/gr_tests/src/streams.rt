ghost use Rattle.std.specs.Prelude.{◌≡◌, IfOk};

use gr_io::{
    Failed, MemorySink, MemorySource, ReadEnd, Sink, Source, StdSink, StdSource, WriteFault,
    read_all, write_all, write_each,
};
use std::alloc::Global;
use std::io;
use std::io::{Read, Write};
use std::process::Abort;
use std::test::Fail;

const TEXT: &[u8; 6] = b"region";

// Reads the text in these pieces, under a limit, where one call fails, and says how that ended.
fn ends(alloc: Global, piece: usize, limit: u64, failing: u64) -> Result<(usize, Vec<u8>), Fail> {
    let piece = piece.max(1);
    let fails = [failing].to_vec(alloc)?;
    let mut source = MemorySource::new(TEXT.to_vec(alloc)?, piece, fails);
    Ok(match read_all(alloc, &mut source, limit) {
        Ok(bytes) => (0, bytes),
        Err(ReadEnd::Fault) => (1, Vec::new(alloc)),
        Err(ReadEnd::TooLarge(bytes)) => (2, bytes),
        Err(ReadEnd::Memory) => (3, Vec::new(alloc)),
    })
}

// The most bytes of a call, the limit and the failing call, and then how that ends and what is read.
static READS: [((usize, u64, u64), usize, &[u8]); 8] = [
    ((1, 6, 0), 0, b"region"),
    ((4, 6, 0), 0, b"region"),
    ((64, u64::MAX, 0), 0, b"region"),
    ((1, 5, 0), 2, b"region"),
    ((64, 2, 0), 2, b"reg"),
    ((64, 0, 0), 2, b"r"),
    ((4, 6, 3), 1, b""),
    ((4, 6, 4), 0, b"region"),
];

fn is_read_so(
    rt: &impl Abort,
    alloc: Global,
    case: (usize, u64, u64),
    ended: usize,
    bytes: &[u8],
) -> Result<(), Fail> {
    let (piece, limit, failing) = case;
    let (how, read) = ends(alloc, piece, limit, failing)?;
    assert!(rt; how == ended, "{case:?}");
    assert!(rt; read.as_slice() == bytes, "{case:?}");
    Ok(())
}

#[test]
fn reads_up_to_the_end_a_limit_or_a_fault(rt: HostRuntime) -> Result<(), Fail> {
    for (case, ended, bytes) in &READS {
        is_read_so(&rt, rt.alloc(), *case, *ended, bytes)?;
    }
    Ok(())
}

// The room, the most bytes of a call and the failing call, and then whether all is written, and what is held.
static WRITES: [((usize, usize, u64), bool, &[u8]); 6] = [
    ((6, 1, 0), true, b"region"),
    ((9, 4, 0), true, b"region"),
    ((4, 3, 0), false, b"regi"),
    ((6, 2, 2), false, b"re"),
    ((6, 2, 1), false, b""),
    ((6, 2, 4), true, b"region"),
];

fn sink(alloc: Global, room: usize, piece: usize, failing: u64) -> Result<MemorySink, Fail> {
    let fails = [failing].to_vec(alloc)?;
    let sink = MemorySink::new(alloc, room, piece.max(1), fails).ok();
    Ok(sink.ok_or("memory")?)
}

fn is_written_so(
    rt: &impl Abort,
    alloc: Global,
    case: (usize, usize, u64),
    done: bool,
    held: &[u8],
) -> Result<(), Fail> {
    let (room, piece, failing) = case;
    let mut sink = sink(alloc, room, piece, failing)?;
    let wrote = write_all(&mut sink, TEXT).is_ok();
    assert!(rt; wrote == done, "{case:?}");
    assert!(rt; sink.held() == held, "{case:?}");
    Ok(())
}

#[test]
fn writes_the_whole_or_a_part(rt: HostRuntime) -> Result<(), Fail> {
    for (case, done, held) in &WRITES {
        is_written_so(&rt, rt.alloc(), *case, *done, held)?;
    }
    Ok(())
}

/// Fails at every call.
#[derive(Drop)]
struct Broken;

impl Read for Broken {
    fn read(&mut self, _buf: &mut [u8]) -> io::Result<usize> {
        Err(io::Error::from(io::ErrorKind::Other))
    }
}

impl Write for Broken {
    fn write(&mut self, _buf: &[u8]) -> io::Result<usize> {
        Err(io::Error::from(io::ErrorKind::Other))
    }

    fn flush(&mut self) -> io::Result<()> {
        Ok(())
    }
}

/// Fails at every second call.
#[derive(Drop)]
struct InTurns {
    failed: bool,
}

impl InTurns {
    fn answer(&mut self, count: usize) -> io::Result<usize>
        ensures { IfOk result (λ n. n ≡ count) }
    {
        self.failed = !self.failed;
        if self.failed {
            Ok(count)
        } else {
            Err(io::Error::from(io::ErrorKind::Other))
        }
    }
}

impl Read for InTurns {
    fn read(&mut self, buf: &mut [u8]) -> io::Result<usize> {
        self.answer(buf.len())
    }
}

impl Write for InTurns {
    fn write(&mut self, buf: &[u8]) -> io::Result<usize> {
        self.answer(buf.len())
    }

    fn flush(&mut self) -> io::Result<()> {
        Ok(())
    }
}

fn read_four<R: Read>(source: &mut StdSource<R>) -> Result<usize, Failed> {
    source.read(&mut [0; 4])
}

fn write_four<W: Write>(sink: &mut StdSink<W>) -> Result<usize, Failed> {
    sink.write(&[0; 4])
}

#[test]
fn a_fault_is_an_error_of_the_stream_behind(rt: HostRuntime) -> Result<(), Fail> {
    let mut source = StdSource::new(InTurns { failed: false });
    let mut sink = StdSink::new(InTurns { failed: false });
    for count in [Ok(4), Err(Failed), Ok(4), Err(Failed)] {
        assert_eq!(rt; read_four(&mut source), count);
        assert_eq!(rt; write_four(&mut sink), count);
    }
    Ok(())
}

fn read_text(alloc: Global) -> Result<Vec<u8>, ReadEnd> {
    read_all(alloc, &mut StdSource::new(TEXT.as_slice()), 6)
}

fn is_cut_off(alloc: Global) -> bool {
    let mut source = StdSource::new(TEXT.as_slice().chain(Broken));
    matches!(read_all(alloc, &mut source, 6), Err(ReadEnd::Fault))
}

#[test]
fn reads_from_std(rt: HostRuntime) -> Result<(), Fail> {
    let read = read_text(rt.alloc()).ok().ok_or("not read")?;
    assert_eq!(rt; read.as_slice(), TEXT.as_slice());
    assert!(rt; is_cut_off(rt.alloc()));
    assert_eq!(rt; read_four(&mut StdSource::new(Broken)), Err(Failed));
    Ok(())
}

fn write_text(alloc: Global) -> Result<Vec<u8>, WriteFault> {
    let mut sink = StdSink::new(Vec::new(alloc));
    write_all(&mut sink, TEXT)?;
    Ok(sink.into_inner())
}

fn write_where_there_is_little_room(rt: &impl Abort) {
    let mut room = [0u8; 4];
    let wrote = write_each(&mut StdSink::new(room.as_mut_slice()), &["re", "gi", "on"]);
    assert_eq!(rt; wrote, Err(WriteFault));
    assert_eq!(rt; room, *b"regi");
}

fn write_where_there_is_none(rt: &impl Abort) {
    assert_eq!(rt; StdSink::new(Broken).write(TEXT), Err(Failed));
    let mut full = [0u8; 0];
    assert_eq!(rt; StdSink::new(full.as_mut_slice()).write(TEXT), Err(Failed));
}

#[test]
fn writes_to_std(rt: HostRuntime) -> Result<(), Fail> {
    let written = write_text(rt.alloc()).ok().ok_or("not written")?;
    assert_eq!(rt; written.as_slice(), TEXT.as_slice());
    write_where_there_is_little_room(&rt);
    write_where_there_is_none(&rt);
    Ok(())
}
