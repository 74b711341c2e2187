//! Files that are read whole, and bytes that are written whole, over the stores and sinks in memory.

use crate::case::{Case, Wrong, number_of};
use crate::escape::{lines_of, show_lines};
use og_base::{
    MemSink, MemStore, NeverFailSink, NeverFailStore, ReadError, Store, read_all, write_all,
};
use std::alloc::{AllocError, Global};
use std::mem;

/// Appends what the reading of a file answers, over a store that fails at the calls of the case, and over one that never fails.
pub fn show_read(alloc: Global, case: &mut Case, out: &mut String) -> Result<(), Wrong> {
    let [name, limit] = case.words.as_slice() else {
        return Err(Wrong::Words);
    };
    let limit = number_of(limit.as_str())?;
    let mut store = MemStore::new(Vec::new(alloc), case.reads.clone()?);
    mem::swap(&mut case.files, &mut store.files);
    show_read_of(alloc, &mut store, name.as_str(), limit, out)?;
    let failures = store.failures;
    write!(out, ", {failures} failures\nnever failing: ")?;
    let mut store = NeverFailStore::new(store.files);
    show_read_of(alloc, &mut store, name.as_str(), limit, out)?;
    out.push_str("\n")?;
    Ok(())
}

fn show_read_of<S: Store>(
    alloc: Global,
    store: &mut S,
    name: &str,
    limit: u64,
    out: &mut String,
) -> Result<(), AllocError> {
    match read_all(alloc, store, name, limit) {
        Ok(bytes) => {
            let size = bytes.len();
            write!(out, "{size} bytes")
        }
        Err(ReadError::Fault) => out.push_str("Fault"),
        Err(ReadError::TooLarge) => out.push_str("TooLarge"),
        Err(_) => out.push_str("no memory"),
    }
}

/// Appends what the writing of each line of a file answers, and what was written then.
pub fn show_write(
    alloc: Global,
    case: &Case,
    bytes: &[u8],
    out: &mut String,
) -> Result<(), AllocError> {
    let mut sink = MemSink::new(alloc, case.writes.clone()?);
    for line in lines_of(alloc, bytes)? {
        let never = write_all(&mut NeverFailSink, line).is_ok();
        match write_all(&mut sink, line) {
            Ok(()) if never => out.push_str("written\n")?,
            Ok(()) => out.push_str("written, and failed where nothing fails\n")?,
            Err(_) => out.push_str("failed\n")?,
        }
    }
    let failures = sink.failures;
    write!(out, "{failures} failures\n")?;
    show_lines(alloc, sink.bytes.as_slice(), out)
}
