//! Numbers and places in a vector of cells.

ghost use Rattle.std.specs.Prelude.{◌≡◌, ◌+◌, ◌<◌, ◌^◌, min, length, pos, slice_index_or};
ghost use Rattle.og_ir.specs.Reading.{natural as natural_in};

/// The number at a place. Past the end of the vector each number is 0, and no program that breaks no load rule comes there.
pub fn number_at(cells: &[i64], at: usize) -> i64
    ensures { result ≡ slice_index_or cells.now at (pos 0) }
{
    match cells.get(at) {
        None => 0,
        Some(number) => *number,
    }
}

/// The place behind so many cells, or the end of the vector.
pub fn behind(cells: &[i64], at: usize, width: usize) -> usize
    ensures place { result ≡ min (at + width) (length cells.now) }
    ensures fits { length cells.now < 2 ^ 64 }
{
    at.saturating_add(width).min(cells.len())
}

/// The number at a place, where it is from 0 up.
pub fn natural_at(cells: &[i64], at: usize) -> Option<usize>
    ensures { result ≡ natural_in (slice_index_or cells.now at (pos 0)) }
{
    natural(number_at(cells, at))
}

/// A number from 0 up.
pub fn natural(number: i64) -> Option<usize>
    ensures { result ≡ natural_in number }
{
    if number < 0 {
        return None;
    }
    Some(number as usize)
}
