//! Where a process stands in the slots of its code, and what holds of slots that stand for one: what is read after writing.
//!
//! Definitions and laws alone: each function does nothing, and its contract is the law.
#![tactic(auto)]

ghost use Rattle.std.specs.Prelude.{◌≡◌, ℕ, List, ◌++◌, Bool, true, false, if◌then◌else◌, Some, slice_get, slice_set, pos};
ghost use Rattle.og_types.specs.declared.Sort.{Sort};
ghost use Rattle.og_types.specs.declared.TypeId.{TypeId};
ghost use Rattle.og_types.specs.declared.Value.{Value};
ghost use Rattle.og_types.specs.Values.{is_in};
ghost use Rattle.og_model.specs.declared.Model.{Model};
ghost use Rattle.og_model.specs.declared.Variable.{Variable};
ghost use Rattle.og_model.specs.Configuration.{Active as Configuration, paths_of};
ghost use Rattle.og_model.specs.Regions.{regions};
ghost use Rattle.og_model.specs.Units.{State};
ghost use Rattle.og_model.specs.Shown.{Rest};
ghost use Rattle.og_csubset.specs.Reads.{end_of};
ghost use Rattle.og_ir.specs.Cells.{Cells, Cell, global, change_global};
ghost use Rattle.og_ir.specs.Reading.{value_in, cells_of};
ghost use Rattle.og_layout.specs.Examples.{numbers, process, in_a, in_d, in_both, at_rest};
ghost use Rattle.og_layout.specs.Layout.{Mark, Active, Inactive, Between, Basic, Comp, Agg, NoParts, Part, Leaf, NoLeaf, AnyLeaf, numbers_of, marked, region_numbers, told_paths, IsActive};
ghost use Rattle.og_layout.specs.Named.{IsNamed, HasAll};
ghost use Rattle.og_layout.specs.Layout.{Layout, slots_of, Differ, Held, A_value, A_number, Anything, Holds, Expected, HoldsAt, AllHold, once_written, Number, held_number, expected_of, StandsFor};

/// Where cells are written into a slot, the slot holds what they hold, and the others hold what they held.
pub fn written_slots_are_read()
    ensures { (sorts : List Sort) (slots : List Cells) (k : ℕ) (cells : Cells) (held : Held) (xs : List Expected)
        → AllHold sorts slots xs → Holds sorts held cells
        → AllHold sorts (change_global k (λ old. cells) slots) (once_written k held xs) }
{}

/// What slots hold that stand for a process: the values of its variables, whether its timers are active, the numbers of its
/// regions, and that it has neither stopped nor failed. Every other slot of the layout is there.
pub fn standing_slots_hold()
    ensures variable { (M : Model) (layout : Layout) (mark : Mark) (s : State) (slots : List Cells) → StandsFor M layout mark s slots
        → (i k : ℕ) (x : Variable) (v : Value) → slice_get layout.variables i ≡ Some k → slice_get M.variables i ≡ Some x
        → slice_get s.store.variables i ≡ Some v → HoldsAt M.types slots (record { slot = k; held = A_value x.sort v }) }
    ensures timer { (M : Model) (layout : Layout) (mark : Mark) (s : State) (slots : List Cells) → StandsFor M layout mark s slots
        → (i k : ℕ) (b : Bool) → slice_get layout.timers i ≡ Some k → slice_get s.timers i ≡ Some b
        → HoldsAt M.types slots (record { slot = k; held = A_number (pos (if b then 1 else 0)) }) }
    ensures region { (M : Model) (layout : Layout) (mark : Mark) (s : State) (slots : List Cells) → StandsFor M layout mark s slots
        → (i k : ℕ) (n : Number) → slice_get layout.regions i ≡ Some k → slice_get (region_numbers M mark) i ≡ Some n
        → HoldsAt M.types slots (record { slot = k; held = held_number n }) }
    ensures control { (M : Model) (layout : Layout) (mark : Mark) (s : State) (slots : List Cells) → StandsFor M layout mark s slots
        → HoldsAt M.types slots (record { slot = layout.stopped; held = A_number (pos 0) })
        × HoldsAt M.types slots (record { slot = layout.fault; held = A_number (pos 0) }) }
    ensures others { (M : Model) (layout : Layout) (mark : Mark) (s : State) (slots : List Cells) → StandsFor M layout mark s slots
        → (i k : ℕ) → slice_get (layout.locals ++ (layout.durations ++ layout.parameters)) i ≡ Some k
        → HoldsAt M.types slots (record { slot = k; held = Anything }) }
{}

/// What is expected once a slot was written is what is expected of the process that has changed so: in a variable's value, in
/// whether a timer is active, or in the number of a region. No slot of the layout stands for two things.
pub fn writing_is_expected()
    ensures variable { (M : Model) (layout : Layout) (ns : List Number) (s : State) → Differ (slots_of layout)
        → (i k : ℕ) (x : Variable) (old v : Value) → slice_get layout.variables i ≡ Some k → slice_get M.variables i ≡ Some x
        → slice_get s.store.variables i ≡ Some old
        → once_written k (A_value x.sort v) (expected_of M layout ns s)
        ≡ expected_of M layout ns (record s { store = record s.store { variables = slice_set s.store.variables i v } }) }
    ensures timer { (M : Model) (layout : Layout) (ns : List Number) (s : State) → Differ (slots_of layout)
        → (i k : ℕ) (old b : Bool) → slice_get layout.timers i ≡ Some k → slice_get s.timers i ≡ Some old
        → once_written k (A_number (pos (if b then 1 else 0))) (expected_of M layout ns s)
        ≡ expected_of M layout ns (record s { timers = slice_set s.timers i b }) }
    ensures region { (M : Model) (layout : Layout) (ns : List Number) (s : State) → Differ (slots_of layout)
        → (i k : ℕ) (old n : Number) → slice_get layout.regions i ≡ Some k → slice_get ns i ≡ Some old
        → once_written k (held_number n) (expected_of M layout ns s) ≡ expected_of M layout (slice_set ns i n) s }
{}

/// So slots that stand for a process stand for it where it has changed: in a variable's value, in whether a timer is active,
/// in the number of one region; and what is written besides changes nothing.
pub fn changes_are_followed()
    ensures variable { (M : Model) (layout : Layout) (mark : Mark) (s : State) (slots : List Cells) → Differ (slots_of layout)
        → StandsFor M layout mark s slots
        → (i k : ℕ) (x : Variable) (old v : Value) (cells : Cells) → slice_get layout.variables i ≡ Some k
        → slice_get M.variables i ≡ Some x → slice_get s.store.variables i ≡ Some old → value_in M.types x.sort cells ≡ Some v
        → StandsFor M layout mark (record s { store = record s.store { variables = slice_set s.store.variables i v } })
        (change_global k (λ was. cells) slots) }
    ensures timer { (M : Model) (layout : Layout) (mark : Mark) (s : State) (slots : List Cells) → Differ (slots_of layout)
        → StandsFor M layout mark s slots
        → (i k : ℕ) (old b : Bool) → slice_get layout.timers i ≡ Some k → slice_get s.timers i ≡ Some old
        → StandsFor M layout mark (record s { timers = slice_set s.timers i b })
        (change_global k (λ was. Cell (pos (if b then 1 else 0))) slots) }
    ensures region { (M : Model) (layout : Layout) (mark later : Mark) (s : State) (slots : List Cells) → Differ (slots_of layout)
        → StandsFor M layout mark s slots
        → (i k : ℕ) (old n : Number) (cells : Cells) → slice_get layout.regions i ≡ Some k
        → slice_get (region_numbers M mark) i ≡ Some old → slice_set (region_numbers M mark) i n ≡ region_numbers M later
        → Holds M.types (held_number n) cells → StandsFor M layout later s (change_global k (λ was. cells) slots) }
    ensures besides { (M : Model) (layout : Layout) (mark : Mark) (s : State) (slots : List Cells) → Differ (slots_of layout)
        → StandsFor M layout mark s slots
        → (i k : ℕ) (cells : Cells) → slice_get (layout.locals ++ (layout.durations ++ layout.parameters)) i ≡ Some k
        → StandsFor M layout mark s (change_global k (λ was. cells) slots) }
{}

/// The cells of a value of a type hold it.
pub fn values_are_held()
    ensures { (sorts : List Sort) (t : TypeId) (v : Value) → is_in sorts t v ≡ true → Holds sorts (A_value t v) (cells_of sorts t v) }
{}

/// What the numbers of all regions tell of a process at rest are the paths of its active basic states, in their order.
pub fn numbers_tell_paths()
    ensures { (M : Model) (a : Configuration) → IsActive M.root a → told_paths (regions M) (region_numbers M (marked a)) ≡ paths_of M.root a }
{}

/// Slots that stand for a process at rest, with the names of the interface, are read as its end: with the paths of its active
/// basic states, the values of its variables and its active timers.
pub fn rests_are_read()
    ensures { (M : Model) (names : List (List ℕ)) (slots : List Cells) (layout : Layout) (a : Configuration) (s : State)
        → IsNamed M layout names → IsActive M.root a → HasAll M s → StandsFor M layout (marked a) s slots
        → end_of M names slots ≡ Rest (paths_of M.root a) s.store.variables s.timers }
{}

/// The numbers of the regions, for one tree of states: at rest, with a partition that is done, and half entered.
#[tactic(auto, unfolding(og_model::proofs::Computing::trees))]
pub fn region_numbers_compute()
    ensures basic { numbers_of process in_a ≡ numbers (Leaf 0) NoLeaf NoLeaf }
    ensures composite { numbers_of process in_d ≡ numbers (Leaf 2) NoLeaf NoLeaf }
    ensures both { numbers_of process (in_both (Active 1 Basic) (Active 0 (Comp (Active 0 Basic)))) ≡ numbers (Leaf 3) (Leaf 1) (Leaf 0) }
    ensures half_entered { numbers_of process (in_both (Active 0 Basic) Between) ≡ numbers (Leaf 3) (Leaf 0) AnyLeaf }
    ensures one_done { numbers_of process (marked at_rest) ≡ numbers (Leaf 3) NoLeaf (Leaf 1) }
    ensures completed { numbers_of process (Active 2 (Agg (Part Inactive (Part Inactive NoParts)))) ≡ numbers (Leaf 3) NoLeaf NoLeaf }
    ensures left { numbers_of process Inactive ≡ numbers NoLeaf NoLeaf NoLeaf }
{}
