use std::alloc::Global;
use std::io;

/// How a source or a sink moves bytes: at most so many a call, and the calls that fail.
#[derive(Drop)]
pub struct Moves {
    pub piece: usize,
    pub fails: Vec<u64>,
}

impl Moves {
    // All bytes in one call, and no call fails.
    fn whole(alloc: Global) -> Moves {
        Moves {
            piece: usize::MAX,
            fails: Vec::new(alloc),
        }
    }

    /// At most so many bytes a call, and one call that fails.
    pub fn failing(alloc: Global, piece: usize, call: u64) -> io::Result<Moves> {
        let fails = vec![in alloc; call]?;
        Ok(Moves { piece, fails })
    }

    // Two numbers: the most bytes of a call, and the call that fails, if one does.
    fn read(alloc: Global, text: &str) -> io::Result<Moves> {
        let mut moves = Moves::whole(alloc);
        let mut numbers = text.split_whitespace();
        if let Some(piece) = numbers.next().and_then(|word| word.parse::<usize>().ok()) {
            moves.piece = piece;
        }
        if let Some(call) = numbers.next().and_then(|word| word.parse::<u64>().ok()) {
            moves.fails.push(call)?;
        }
        Ok(moves)
    }
}

/// What the program is given, and what it must leave.
#[derive(Drop)]
pub struct Row {
    pub words: Vec<String>,
    pub script: Vec<u8>,
    pub source: Moves,
    pub sink: Moves,
    pub status: String,
    pub message: String,
    pub report: String,
    /// Lines that stand in the output in this order, with others between them.
    pub among: String,
    /// How often it is run.
    pub times: usize,
}

// Puts bytes last that are written as numbers of two hexadecimal digits.
fn put_bytes(bytes: &mut Vec<u8>, text: &str) -> io::Result<()> {
    for digits in text.split_whitespace() {
        let Ok(byte) = u8::from_str_radix(digits, 16) else {
            return Err(io::Error::from(io::ErrorKind::InvalidData));
        };
        bytes.push(byte)?;
    }
    Ok(())
}

// Puts a line last, with its line feed.
fn put_line(text: &mut String, line: &str) -> io::Result<()> {
    text.push_str(line)?;
    text.push('\n')?;
    Ok(())
}

impl Row {
    fn new(alloc: Global) -> Row {
        Row {
            words: Vec::new(alloc),
            script: Vec::new(alloc),
            source: Moves::whole(alloc),
            sink: Moves::whole(alloc),
            status: String::new(alloc),
            message: String::new(alloc),
            report: String::new(alloc),
            among: String::new(alloc),
            times: 1,
        }
    }

    /// Words and a script, over streams that move all bytes in one call. Nothing is wanted of it.
    pub fn given(alloc: Global, words: &[&str], script: &[u8]) -> io::Result<Row> {
        let mut row = Row::new(alloc);
        for word in words {
            row.words.push(String::from_str(alloc, word)?)?;
        }
        row.script.extend_from_slice(script)?;
        Ok(row)
    }

    /// Reads a row. The first word of a line is the kind of what follows it.
    pub fn read(alloc: Global, text: &str) -> io::Result<Row> {
        let mut row = Row::new(alloc);
        for line in text.lines() {
            let (kind, rest) = line.split_once(' ').unwrap_or((line, ""));
            row.add(alloc, kind, rest)?;
        }
        Ok(row)
    }

    // Adds what one line says.
    fn add(&mut self, alloc: Global, kind: &str, text: &str) -> io::Result<()> {
        match kind {
            "word" => self.words.push(String::from_str(alloc, text)?)?,
            "<" => {
                self.script.extend_from_slice(text.as_bytes())?;
                self.script.push(b'\n')?;
            }
            "<<" => self.script.extend_from_slice(text.as_bytes())?,
            "<x" => put_bytes(&mut self.script, text)?,
            ">" => put_line(&mut self.report, text)?,
            ">>" => self.report.push_str(text)?,
            "+" => put_line(&mut self.among, text)?,
            "!" => put_line(&mut self.message, text)?,
            "status" => self.status.push_str(text)?,
            "times" => self.times = text.parse::<usize>().unwrap_or(1),
            "source" => self.source = Moves::read(alloc, text)?,
            "sink" => self.sink = Moves::read(alloc, text)?,
            "" | "#" => {}
            _ => return Err(io::Error::from(io::ErrorKind::InvalidData)),
        }
        Ok(())
    }
}
