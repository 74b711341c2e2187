ghost use Rattle.std.specs.Prelude.{◌≡◌, ℕ, ◌≤◌, List, Option, length, IfOk, OnErr};
ghost use Rattle.og_base.specs.Store.{Files, GivesPiece, Rose};

/// Reading a file failed.
#[derive(Clone, Copy, Debug, PartialEq, Eq)]
pub struct Failed;

/// Files by their names, read in pieces.
pub trait Store {
    /// What the files hold, where the store tells it.
    ghost holds: { Self → Option Files };

    /// For each name how often reading it failed. A count stays at the greatest number of 64 bits once it is there.
    ghost faults: { Self → List ℕ → ℕ };

    /// Reads bytes of the file from `at` on into the front of `into`, and answers how many. An answer of 0 into a piece that
    /// is not empty comes at the end of the file alone.
    fn read(&mut self, name: &str, at: u64, into: &mut [u8]) -> Result<usize, Failed>
        ensures within { IfOk result (λ count. count ≤ length into.old) }
        ensures piece { IfOk result (GivesPiece (holds self.old) name.now at into.old into.new) }
        ensures fault { OnErr result (Rose (faults self.old name.now) (faults self.new name.now)) }
        ensures counts { (other : List ℕ) → faults self.old other ≤ faults self.new other }
        ensures kept { holds self.new ≡ holds self.old };
}
