use crate::row::Row;
use std::rt::Files;
use std::{fs, io};

/// The lines of a file.
pub fn lines_of<R: Files + AllocGlobal>(rt: &R, path: &str) -> io::Result<Vec<String>> {
    let text = fs::read_to_string(rt, path)?;
    let mut lines = Vec::new(rt.alloc());
    for line in text.lines() {
        lines.push(String::from_str(rt.alloc(), line)?)?;
    }
    Ok(lines)
}

/// The names of the rows: the files of the folder that end in `.row`, in order.
pub fn row_names<R: Files + AllocGlobal + Clone + Drop>(rt: &R) -> io::Result<Vec<String>> {
    let mut names = Vec::new(rt.alloc());
    for entry in fs::read_dir(rt, ".")? {
        let entry = entry?;
        if let Some(name) = entry.file_name().strip_suffix(".row") {
            names.push(String::from_str(rt.alloc(), name)?)?;
        }
    }
    names.sort()?;
    Ok(names)
}

/// The row of this name.
pub fn row_of<R: Files + AllocGlobal>(rt: &R, name: &str) -> io::Result<Row> {
    let path = format!(in rt.alloc(); "{name}.row")?;
    let text = fs::read_to_string(rt, path)?;
    Row::read(rt.alloc(), text.as_str())
}
