//! A folder and a writer in memory, which tell what they hold: what is proved of folders and writers that tell is proved of
//! these.
ghost use Rattle.std.specs.Prelude.{◌≡◌, Option};
ghost use Rattle.std.specs.Option.{option_copied};
ghost use Rattle.og_base.specs.Memory.{file_named};

use crate::{Folder, Output};
use og_base::MemFile;
use std::io;
use std::io::{Cursor, ErrorKind};

/// Files in memory, each read through a cursor. Of two files of one name the first counts.
#[derive(Clone, Copy, Drop)]
pub struct MemoryFolder<'a> {
    files: &'a [MemFile],
}

impl<'a> MemoryFolder<'a> {
    pub fn new(files: &'a [MemFile]) -> MemoryFolder<'a>
        ensures { ⟦<MemoryFolder<'a> as Folder>⟧.files result ≡ Some (file_named files.now) }
    {
        MemoryFolder { files }
    }
}

impl<'a> Folder for MemoryFolder<'a> {
    ghost use Rattle.std.specs.Prelude.{Some};

    type File = Cursor<&'a [u8]>;

    ghost files = { λ s. Some (file_named s.files.now) };

    fn open(&self, name: &str) -> io::Result<Cursor<&'a [u8]>> {
        match find_file(self.files, name.as_bytes()) {
            Some(bytes) => Ok(Cursor::new(bytes)),
            None => Err(io::Error::from(ErrorKind::NotFound)),
        }
    }
}

/// The bytes of the first file of this name.
fn find_file<'a>(files: &'a [MemFile], name: &[u8]) -> Option<&'a [u8]>
    ensures { option_copied result ≡ file_named files.now name.now }
{
    for file in files {
        if file.name.as_slice() == name {
            return Some(file.bytes.as_slice());
        }
    }
    None
}

impl Output for Vec<u8> {
    ghost use Rattle.std.specs.Prelude.{true};
    ghost use Rattle.std.proofs.Common.{rules};

    ghost tells = { true };

    ghost always = { Prim.search rules };
}
