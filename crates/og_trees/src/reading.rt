//! The public call.
ghost use Rattle.std.specs.Prelude.{◌≤◌, IfOk, IfErr, length};
ghost use Rattle.og_trees.specs.Reading.{AreShort, AreTreesOf, BreakTrees, most_files, sources};

use crate::syntax::trees_of;
use crate::texts::lex_files;
use crate::{ModelFile, Trees};
use og_base::ModelError;
use std::alloc::Global;

/// The modules and units of all files, in the order of the files, or the first violation of the rules on tokens (L) and on syntax
/// (S). The files are numbered from 0 in their order. All of them are cut into tokens before the syntax of any is looked at.
pub fn read_trees(alloc: Global, files: &[ModelFile]) -> Result<Trees, ModelError>
    requires few { length files.now ≤ most_files }
    requires short { AreShort (sources files.now) }
    ensures read { IfOk result (AreTreesOf (sources files.now)) }
    ensures broken { IfErr result (BreakTrees (sources files.now)) }
{
    match lex_files(alloc, files) {
        Err(error) => Err(error),
        Ok(texts) => trees_of(alloc, files, texts.as_slice()),
    }
}
