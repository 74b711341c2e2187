//! The vector of cells before a program runs.
#![tactic(auto, using(og_names::proofs::Loops::loops, crate::proofs::Zeros::zeros))]

ghost use Rattle.std.specs.Prelude.{◌≡◌, ◌≤◌, IfOk, length, map, pos, replicate};
ghost use Rattle.og_csubset.specs.Kinds.{first_globals, total};
ghost use Rattle.og_csubset.specs.Loading.{cells_of_globals};
ghost use Rattle.og_ccells.specs.Layouts.{capped, layout_of};
ghost use Rattle.og_ccells.specs.Vectors.{trees_of};

use crate::layout::{Extent, Layout};
use og_csubset::CProgram;
use og_names::NoMemory;
use std::alloc::{AllocError, Global};

/// The cells of the globals of a program that breaks no load rule, each of them 0.
pub fn first_cells(alloc: Global, program: &CProgram, layout: &Layout) -> Result<Vec<i64>, NoMemory>
    requires layout { layout.now ≡ layout_of program.now }
    requires few { cells_of_globals program.now ≤ 16777216 }
    ensures first { IfOk result (λ cells. trees_of program.now cells.items ≡ first_globals program.now) }
    ensures whole { IfOk result (λ cells. length cells.items ≡ cells_of_globals program.now) }
{
    let count = cells_in(layout.extents.as_slice());
    let cells = zeros(alloc, count)?;
    Ok(cells)
}

/// How many cells globals have in all.
fn cells_in(extents: &[Extent]) -> u32
    ensures { result ≡ capped (total (map (λ e. e.width) extents.now)) }
{
    let mut count = 0u32;
    for extent in extents {
        count = count.saturating_add(extent.width);
    }
    count
}

/// So many cells that are 0.
fn zeros(alloc: Global, count: u32) -> Result<Vec<i64>, AllocError>
    ensures { IfOk result (λ cells. cells.items ≡ replicate count (pos 0)) }
{
    vec![in alloc; 0i64; count as usize]
}
