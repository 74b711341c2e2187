ghost use Rattle.std.specs.Prelude.{◌≡◌, ℕ, ◌+◌, ◌≤◌, ◌<◌, ◌⊎◌, List, Some, length, [], take, unwrap_or, is_err, IsOk, IsErr, IfOk, OnErr, IsTrue, if◌then◌else◌, vec_len, vec_capacity};
ghost use Rattle.std.specs.Option.{option_copied};
ghost use Rattle.og_base.specs.Memory.{file_named, file_or_empty, is_bad, counted, read_fails, store_after_read, given_of, told_or_empty, nothing_told};
ghost use Rattle.og_base.specs.Store.{IsPiece, GivesPiece, Rose};
ghost use Rattle.og_base.specs.Sink.{grown};

use crate::{Failed, Sink, Store};
use std::alloc::Global;

/// A file in memory.
#[derive(Drop)]
pub struct MemFile {
    pub name: Vec<u8>,
    pub bytes: Vec<u8>,
}

/// Files in memory. Reading fails at the calls whose numbers, counted from 0, stand in `bad`, and at names that are not
/// there. Of two files of one name the first counts.
#[derive(Drop)]
pub struct MemStore {
    pub files: Vec<MemFile>,
    pub bad: Vec<u64>,
    pub calls: u64,
    pub failures: u64,
}

impl MemStore {
    pub fn new(files: Vec<MemFile>, bad: Vec<u64>) -> MemStore
        ensures files { result.files ≡ files }
        ensures bad { result.bad ≡ bad }
        ensures calls { result.calls ≡ 0 }
        ensures failures { result.failures ≡ 0 }
    {
        MemStore {
            files,
            bad,
            calls: 0,
            failures: 0,
        }
    }
}

/// The bytes of the first file of this name.
fn find_file<'a>(files: &'a [MemFile], name: &[u8]) -> Option<&'a [u8]>
    ensures { option_copied result ≡ file_named files.now name.now }
{
    for file in files {
        if file.name.as_slice() == name {
            return Some(file.bytes.as_slice());
        }
    }
    None
}

/// Copies bytes from `at` on to the front of `into`.
fn give(bytes: &[u8], at: u64, into: &mut [u8]) -> usize
    ensures within { result ≤ length into.old }
    ensures piece { IsPiece bytes.now at into.old into.new result }
    ensures all { result ≡ given_of bytes.now at (length into.old) }
{
    if at >= bytes.len() as u64 {
        return 0;
    }
    let (_, rest) = bytes.split_at(at as usize);
    let count = rest.len().min(into.len());
    let (from, _) = rest.split_at(count);
    let (to, _) = into.split_at_mut(count);
    to.copy_from_slice(from);
    count
}

impl Store for MemStore {
    ghost use Rattle.std.specs.Prelude.{Some};
    ghost use Rattle.og_base.specs.Memory.{file_named};

    ghost holds = { λ s. Some (file_named s.files.items) };

    ghost faults = { λ s _. s.failures };

    fn read(&mut self, name: &str, at: u64, into: &mut [u8]) -> Result<usize, Failed>
        ensures within { IfOk result (λ count. count ≤ length into.old) }
        ensures piece { IfOk result (GivesPiece (Some (file_named self.old.files.items)) name.now at into.old into.new) }
        ensures fault { OnErr result (Rose self.old.failures self.new.failures) }
        ensures counts { (other : List ℕ) → self.old.failures ≤ self.new.failures }
        ensures kept { Some (file_named self.new.files.items) ≡ Some (file_named self.old.files.items) }

        // Which calls fail, what each call leaves, and that all bytes are given for which there is room.
        ensures fails { is_err result ≡ read_fails self.old name.now }
        ensures after { self.new ≡ store_after_read self.old name.now }
        ensures all { IfOk result (λ count. count ≡ given_of (file_or_empty self.old.files.items name.now) at (length into.old)) }
    {
        let fails = self.bad.contains(&self.calls);
        self.calls = self.calls.saturating_add(1);
        if fails {
            self.failures = self.failures.saturating_add(1);
            return Err(Failed);
        }
        match find_file(&self.files, name.as_bytes()) {
            Some(bytes) => Ok(give(bytes, at, into)),
            None => {
                self.failures = self.failures.saturating_add(1);
                Err(Failed)
            }
        }
    }
}

/// Files in memory that are read without a fault. A name that is not there is an empty file.
#[derive(Drop)]
pub struct NeverFailStore {
    pub files: Vec<MemFile>,
}

impl NeverFailStore {
    pub fn new(files: Vec<MemFile>) -> NeverFailStore
        ensures { result.files ≡ files }
    {
        NeverFailStore { files }
    }
}

impl Store for NeverFailStore {
    ghost use Rattle.std.specs.Prelude.{Some};
    ghost use Rattle.og_base.specs.Memory.{file_or_empty};

    ghost holds = { λ s. Some (λ name. Some (file_or_empty s.files.items name)) };

    ghost faults = { λ _ _. 0 };

    fn read(&mut self, name: &str, at: u64, into: &mut [u8]) -> Result<usize, Failed>
        ensures within { IfOk result (λ count. count ≤ length into.old) }
        ensures piece { IfOk result (GivesPiece (told_or_empty self.old.files.items) name.now at into.old into.new) }
        ensures fault { OnErr result (Rose 0 0) }
        ensures counts { (other : List ℕ) → 0 ≤ 0 }
        ensures kept { told_or_empty self.new.files.items ≡ told_or_empty self.old.files.items }

        // No call fails, the files stay, and all bytes are given for which there is room.
        ensures never { IsOk result }
        ensures files { self.new ≡ self.old }
        ensures all { IfOk result (λ count. count ≡ given_of (file_or_empty self.old.files.items name.now) at (length into.old)) }
    {
        match find_file(&self.files, name.as_bytes()) {
            Some(bytes) => Ok(give(bytes, at, into)),
            None => Ok(give(&[], at, into)),
        }
    }
}

/// What was written, in memory. Writing fails at the calls whose numbers, counted from 0, stand in `bad`, and where memory
/// for the bytes cannot be had.
#[derive(Drop)]
pub struct MemSink {
    pub bytes: Vec<u8>,
    pub bad: Vec<u64>,
    pub calls: u64,
    pub failures: u64,
}

impl MemSink {
    pub fn new(alloc: Global, bad: Vec<u64>) -> MemSink
        ensures bytes { result.bytes.items ≡ [] }
        ensures bad { result.bad ≡ bad }
        ensures calls { result.calls ≡ 0 }
        ensures failures { result.failures ≡ 0 }
    {
        MemSink {
            bytes: Vec::new(alloc),
            bad,
            calls: 0,
            failures: 0,
        }
    }
}

impl Sink for MemSink {
    ghost use Rattle.std.specs.Prelude.{Some};

    ghost written = { λ s. Some s.bytes.items };

    ghost faults = { λ s. s.failures };

    fn write(&mut self, bytes: &[u8]) -> Result<usize, Failed>
        ensures within { IfOk result (λ count. count ≤ length bytes.now) }
        ensures progress { IfOk result (λ count. 0 < length bytes.now → 0 < count) }
        ensures taken { IfOk result (λ count. Some self.new.bytes.items ≡ grown (take count bytes.now) (Some self.old.bytes.items)) }
        ensures refused { OnErr result (Some self.new.bytes.items ≡ Some self.old.bytes.items) }
        ensures fault { OnErr result (Rose self.old.failures self.new.failures) }
        ensures counts { self.old.failures ≤ self.new.failures }

        // A call fails where it is to fail, and else only where there was no room for its bytes.
        ensures bad_call { IsTrue (is_bad self.old.bad.items self.old.calls) → IsErr result }
        ensures no_room { OnErr result (IsTrue (is_bad self.old.bad.items self.old.calls) ⊎ (vec_capacity self.old.bytes < vec_len self.old.bytes + length bytes.now)) }
        // All bytes are taken. Each call counts, and one that fails counts twice; the numbers of bad calls stay.
        ensures all { IfOk result (λ count. count ≡ length bytes.now) }
        ensures calls { self.new.calls ≡ counted self.old.calls }
        ensures failures { self.new.failures ≡ (if is_err result then counted self.old.failures else self.old.failures) }
        ensures bad { self.new.bad ≡ self.old.bad }
    {
        let refuses = self.bad.contains(&self.calls);
        self.calls = self.calls.saturating_add(1);
        if refuses {
            self.failures = self.failures.saturating_add(1);
            return Err(Failed);
        }
        match self.bytes.extend_from_slice(bytes) {
            Ok(()) => Ok(bytes.len()),
            Err(_) => {
                self.failures = self.failures.saturating_add(1);
                Err(Failed)
            }
        }
    }
}

/// Takes all bytes and tells nothing.
#[derive(Clone, Copy, Debug, PartialEq, Eq)]
pub struct NeverFailSink;

impl Sink for NeverFailSink {
    ghost use Rattle.std.specs.Prelude.{None};

    ghost written = { λ _. None };

    ghost faults = { λ _. 0 };

    fn write(&mut self, bytes: &[u8]) -> Result<usize, Failed>
        ensures within { IfOk result (λ count. count ≤ length bytes.now) }
        ensures progress { IfOk result (λ count. 0 < length bytes.now → 0 < count) }
        ensures taken { IfOk result (λ count. nothing_told ≡ grown (take count bytes.now) nothing_told) }
        ensures refused { OnErr result (nothing_told ≡ nothing_told) }
        ensures fault { OnErr result (Rose 0 0) }
        ensures counts { 0 ≤ 0 }
        // All bytes are taken.
        ensures all { result ≡ Ok (length bytes.now) }
    {
        Ok(bytes.len())
    }
}
