//! Calls of the tool over files in memory.

use crate::case::{Case, Shown};
use crate::escape::{lines_of, show_line, show_lines, texts_of};
use og_base::{MemFile, MemSink, MemStore};
use og_tool::{Status, run_tool};
use std::alloc::{AllocError, Global};
use std::mem;

/// Appends the status of a call with the words of the case, and what was written.
pub fn show_command(alloc: Global, case: &mut Case, out: &mut String) -> Result<(), AllocError> {
    let reads = case.reads.clone()?;
    let mut sink = MemSink::new(alloc, case.writes.clone()?);
    let status = called(alloc, &mut case.files, &case.words, reads, &mut sink);
    let code = status.code();
    write!(out, "{status:?} {code}\n")?;
    show_output(alloc, case, sink.bytes.as_slice(), out)
}

/// What the tool writes that is called with these words over these files, where no call fails.
pub fn written_by(alloc: Global, files: &mut Vec<MemFile>, words: &Vec<String>) -> Vec<u8> {
    let mut sink = MemSink::new(alloc, Vec::new(alloc));
    called(alloc, files, words, Vec::new(alloc), &mut sink);
    sink.bytes
}

/// Calls the tool over files that stay as they are.
fn called(
    alloc: Global,
    files: &mut Vec<MemFile>,
    words: &Vec<String>,
    reads: Vec<u64>,
    sink: &mut MemSink,
) -> Status {
    let mut store = MemStore::new(Vec::new(alloc), reads);
    mem::swap(files, &mut store.files);
    let status = run_tool(alloc, words, &mut store, sink);
    mem::swap(files, &mut store.files);
    status
}

/// Appends an output as the case wants it shown.
fn show_output(
    alloc: Global,
    case: &Case,
    bytes: &[u8],
    out: &mut String,
) -> Result<(), AllocError> {
    match &case.shown {
        Shown::Whole => show_lines(alloc, bytes, out),
        Shown::Lines(numbers) => show_numbered(alloc, bytes, numbers, out),
        Shown::Ends(count) => show_ends(alloc, bytes, *count, out),
        Shown::As(name) => show_same(bytes, case.file(name.as_str()), name.as_str(), out),
    }
}

fn show_numbered(
    alloc: Global,
    bytes: &[u8],
    numbers: &[u64],
    out: &mut String,
) -> Result<(), AllocError> {
    let lines = texts_of(alloc, bytes)?;
    for number in numbers {
        let number = *number as usize;
        match lines.get(number.wrapping_sub(1)) {
            None => write!(out, "{number} is not there\n")?,
            Some(line) => {
                write!(out, "{number} ")?;
                show_line("", line, out)?;
            }
        }
    }
    Ok(())
}

/// Appends how many bytes there are, and so many of the first and of the last lines.
fn show_ends(alloc: Global, bytes: &[u8], count: u64, out: &mut String) -> Result<(), AllocError> {
    let size = bytes.len();
    write!(out, "{size} bytes\n")?;
    let count = count as usize;
    let lines = lines_of(alloc, bytes)?;
    let last = lines.len().saturating_sub(count);
    for (number, line) in lines.iter().enumerate() {
        if number == count && number < last {
            out.push_str("..\n")?;
        }
        if number < count || number >= last {
            show_lines(alloc, line, out)?;
        }
    }
    Ok(())
}

/// Whether the output is the file, or where the two part.
fn show_same(
    bytes: &[u8],
    file: Option<&[u8]>,
    name: &str,
    out: &mut String,
) -> Result<(), AllocError> {
    let Some(wanted) = file else {
        return write!(out, "{name} is not there\n");
    };
    if bytes == wanted {
        return write!(out, "as {name}\n");
    }
    let mut equal = 0u64;
    for (one, other) in bytes.iter().zip(wanted) {
        if one != other {
            break;
        }
        equal = equal.saturating_add(1);
    }
    write!(out, "other than {name} behind {equal} bytes\n")
}
