//! A sink over a writer.
ghost use Rattle.std.specs.Prelude.{◌≡◌, Bool, IsTrue, IsSome};
ghost use Rattle.og_outside.specs.Told.{told};

use og_base::{Failed, Sink};
use std::io::{Printer, Write};

/// A writer that always tells what it holds, or of which nothing is known.
pub trait Output: Write {
    /// Whether the writer tells what it holds.
    ghost tells: { Bool };

    ghost always: { IsTrue tells → (writer : Self) → IsSome (Self.contents writer) };
}

/// Of what prints nothing is known.
impl<P: Print> Output for Printer<'_, P> {
    ghost use Rattle.std.specs.Prelude.{false};
    ghost use Rattle.std.proofs.Common.{rules};

    ghost tells = { false };

    ghost always = { Prim.search rules };
}

/// What a writer takes, in order.
#[derive(Drop)]
pub struct WriterSink<W> {
    writer: W,
    failures: u64,
}

impl<W: Output> WriterSink<W> {
    pub fn new(writer: W) -> WriterSink<W>
        ensures written { ⟦<WriterSink<W> as Sink>⟧.written result ≡ told W.tells (W.contents writer) }
        ensures faults { ⟦<WriterSink<W> as Sink>⟧.faults result ≡ 0 }
    {
        WriterSink {
            writer,
            failures: 0,
        }
    }
}

impl<W: Output> Sink for WriterSink<W> {
    ghost written = { λ s. told W.tells (W.contents s.writer) };

    ghost faults = { λ s. s.failures };

    fn write(&mut self, bytes: &[u8]) -> Result<usize, Failed> {
        match self.writer.write(bytes) {
            Ok(count) if count > 0 || bytes.is_empty() => Ok(count),
            _ => {
                self.failures = self.failures.saturating_add(1);
                Err(Failed)
            }
        }
    }
}
