use std::alloc::Global;
use std::io;

/// The modulus of the numbers that are drawn.
const MODULUS: u64 = 2_147_483_647;

/// Numbers that are drawn one behind the other, from a seed.
#[derive(Drop)]
pub struct Numbers {
    last: u32,
}

impl Numbers {
    pub fn new(seed: u32) -> Numbers {
        Numbers { last: seed }
    }

    fn next(&mut self) -> u32 {
        self.last = (u64::from(self.last) * 48_271 % MODULUS) as u32;
        self.last
    }

    /// A number below this one; 0 where none is.
    pub fn below(&mut self, most: usize) -> usize {
        (self.next() as usize).checked_rem(most).unwrap_or(0)
    }

    /// Any byte.
    fn byte(&mut self) -> u8 {
        (self.next() % 256) as u8
    }
}

/// A text in four parts, of which the two in the middle are short.
#[derive(Clone, Copy)]
struct Parts<'a> {
    head: &'a [u8],
    one: &'a [u8],
    other: &'a [u8],
    tail: &'a [u8],
}

// Where the lines of a text begin.
fn line_starts(alloc: Global, text: &[u8]) -> io::Result<Vec<usize>> {
    let mut starts = vec![in alloc; 0usize]?;
    for (index, byte) in text.iter().enumerate() {
        if *byte == b'\n' {
            starts.push(index.saturating_add(1))?;
        }
    }
    Ok(starts)
}

fn cut(text: &[u8], first: usize, second: usize, third: usize) -> Option<Parts<'_>> {
    let (text, tail) = text.split_at_checked(third)?;
    let (text, other) = text.split_at_checked(second)?;
    let (head, one) = text.split_at_checked(first)?;
    Some(Parts {
        head,
        one,
        other,
        tail,
    })
}

// The place of a cut: where a line begins, or where there are no lines, between any two bytes.
fn place(starts: &[usize], len: usize, number: usize) -> usize {
    if starts.is_empty() {
        number.min(len)
    } else {
        starts.get(number).copied().unwrap_or(len)
    }
}

// Cuts a text between lines, or between bytes, as the numbers say.
fn cut_somewhere<'a>(
    alloc: Global,
    text: &'a [u8],
    numbers: &mut Numbers,
) -> io::Result<Option<Parts<'a>>> {
    let mut starts = Vec::new(alloc);
    let mut count = text.len();
    if numbers.below(2) == 0 {
        starts = line_starts(alloc, text)?;
        count = starts.len();
    }
    let first = numbers.below(count);
    let second = first.saturating_add(numbers.below(4));
    let third = second.saturating_add(numbers.below(4));
    Ok(cut(
        text,
        place(starts.as_slice(), text.len(), first),
        place(starts.as_slice(), text.len(), second),
        place(starts.as_slice(), text.len(), third),
    ))
}

/// A text with one place of it changed, cut out, doubled or swapped, as the numbers say.
pub fn edited(alloc: Global, text: &[u8], numbers: &mut Numbers) -> io::Result<Vec<u8>> {
    let mut made = Vec::new(alloc);
    let Some(parts) = cut_somewhere(alloc, text, numbers)? else {
        return Ok(made);
    };
    let byte = numbers.byte();
    made.extend_from_slice(parts.head)?;
    match numbers.below(4) {
        0 => made.push(byte)?,
        1 => made.extend_from_slice(parts.other)?,
        2 => {
            made.extend_from_slice(parts.one)?;
            made.extend_from_slice(parts.one)?;
            made.extend_from_slice(parts.other)?;
        }
        _ => {
            made.extend_from_slice(parts.other)?;
            made.extend_from_slice(parts.one)?;
        }
    }
    made.extend_from_slice(parts.tail)?;
    Ok(made)
}
