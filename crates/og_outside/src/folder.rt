//! What opens files by their names.
ghost use Rattle.std.specs.Prelude.{Option, IfOk};
ghost use Rattle.og_base.specs.Store.{Files as NamedBytes};
ghost use Rattle.og_outside.specs.Opened.{Opens};

use std::io::{Read, Seek};
use std::rt::Files;
use std::{fs, io};

/// Opens files by their names for reading.
pub trait Folder {
    type File: Read + Seek + Drop;

    /// The bytes of each file that is there, where the folder tells them.
    ghost files: { Self → Option NamedBytes };

    fn open(&self, name: &str) -> io::Result<Self::File>
        ensures { IfOk result (Opens (files self.now) name.now Self.File.stream_bytes Self.File.stream_position Self.File.remaining) };
}

/// The files of the file system, of which nothing is known.
#[derive(Clone, Copy, Drop)]
pub struct Disk<'a, R: Files> {
    rt: &'a R,
}

impl<'a, R: Files> Disk<'a, R> {
    pub fn new(rt: &'a R) -> Disk<'a, R> {
        Disk { rt }
    }
}

impl<R: Files> Folder for Disk<'_, R> {
    ghost use Rattle.std.specs.Prelude.{None};

    type File = R::File;

    ghost files = { λ _. None };

    fn open(&self, name: &str) -> io::Result<R::File> {
        fs::open(self.rt, name)
    }
}
