//! A part of the globals' trees of cells is a range of their vector.

ghost use Rattle.std.specs.Prelude.{◌≡◌, ◌+◌, ◌≤◌, ℕ, ℤ, List, Some, length};
ghost use Rattle.og_ir.specs.Cells.{Cells, part_at, put_at, count};
ghost use Rattle.og_ccells.specs.Vectors.{filled, numbers_before_path, numbers_of, put_cells, SameShape};

/// A tree of a shape, whose numbers stand in a vector from a place on: a part of it is the part of the shape, from as many
/// places further on as there are numbers before it. Another part of the same shape in its place is its numbers there.
pub fn parts_are_ranges()
    ensures read { (shape part : Cells) (path : List ℕ) (at : ℕ) (xs : List ℤ) → part_at path shape ≡ Some part
        → part_at path (filled at shape xs) ≡ Some (filled (at + numbers_before_path path shape) part xs) }
    ensures written { (shape part new : Cells) (path : List ℕ) (at : ℕ) (xs : List ℤ) → part_at path shape ≡ Some part → SameShape part new
        → at + count shape ≤ length xs
        → put_at path new (filled at shape xs) ≡ filled at shape (put_cells (at + numbers_before_path path shape) new xs) }
{}
