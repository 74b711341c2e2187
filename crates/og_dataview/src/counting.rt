//! Numbers of 32 bits for what stands in lists.
ghost use Rattle.std.specs.Prelude.{◌≡◌, IfOk};

use og_names::NoMemory;

/// How many there are. More than numbers of 32 bits can count are told as want of memory.
pub fn counted(count: usize) -> Result<u32, NoMemory>
    ensures { IfOk result (λ n. n ≡ count) }
{
    if count >= u32::MAX as usize {
        return Err(NoMemory::past_numbers(count));
    }
    Ok(count as u32)
}
