//! A store over a folder of files.
ghost use Rattle.std.specs.Prelude.{ℕ, List, ◌≡◌, ◌≤◌, length, IfOk, IfSome};
ghost use Rattle.og_base.specs.Store.{GivesPiece, IsPiece};
ghost use Rattle.og_outside.specs.Opened.{IsFile};

use crate::Folder;
use og_base::{Failed, Store};
use std::io;
use std::io::{Read, Seek, SeekFrom};

/// How many bytes are read at once. A piece that is asked for may be longer.
const PIECE: usize = 8192;

/// The files of a folder. Each piece is read from a file that is opened anew.
#[derive(Drop)]
pub struct FileStore<D> {
    folder: D,
    failures: u64,
}

impl<D: Folder> FileStore<D> {
    pub fn new(folder: D) -> FileStore<D>
        ensures holds { ⟦<FileStore<D> as Store>⟧.holds result ≡ D.files folder }
        ensures faults { (name : List ℕ) → ⟦<FileStore<D> as Store>⟧.faults result name ≡ 0 }
    {
        FileStore {
            folder,
            failures: 0,
        }
    }
}

impl<D: Folder> Store for FileStore<D> {
    ghost holds = { λ s. D.files s.folder };

    ghost faults = { λ s _. s.failures };

    fn read(&mut self, name: &str, at: u64, into: &mut [u8]) -> Result<usize, Failed> {
        match read_named(&self.folder, name, at, into) {
            Ok(count) => Ok(count),
            Err(_) => {
                self.failures = self.failures.saturating_add(1);
                Err(Failed)
            }
        }
    }
}

/// Reads bytes of the file of this name from `at` on into the front of `into`.
fn read_named<D: Folder>(folder: &D, name: &str, at: u64, into: &mut [u8]) -> io::Result<usize>
    ensures within { IfOk result (λ count. count ≤ length into.old) }
    ensures piece { IfOk result (GivesPiece (D.files folder.now) name.now at into.old into.new) }
{
    let mut file = folder.open(name)?;
    read_at(&mut file, at, into)
}

/// Reads bytes of an open file from `at` on into the front of `into`.
fn read_at<F: Read + Seek>(file: &mut F, at: u64, into: &mut [u8]) -> io::Result<usize>
    ensures within { IfOk result (λ count. count ≤ length into.old) }
    ensures piece { IfOk result (λ count. IsFile F.stream_bytes F.stream_position F.remaining → IfSome (F.stream_position file.old) (λ _. IfSome (F.stream_bytes file.old) (λ bytes. IsPiece bytes at into.old into.new count))) }
{
    file.seek(SeekFrom::Start(at))?;
    read_next(file, into)
}

/// Reads the next bytes into the front of `into`. A reader may use the room behind them, so they come by a piece of its own.
fn read_next<F: Read>(file: &mut F, into: &mut [u8]) -> io::Result<usize>
    ensures within { IfOk result (λ count. count ≤ length into.old) }
    ensures piece { IfOk result (λ count. IfSome (F.remaining file.old) (λ rest. IsPiece rest 0 into.old into.new count)) }
{
    let mut piece = [0u8; PIECE];
    let room = into.len().min(PIECE);
    let count = file.read(&mut piece[..room])?;
    let (from, _) = piece.split_at(count);
    let (to, _) = into.split_at_mut(count);
    to.copy_from_slice(from);
    Ok(count)
}
