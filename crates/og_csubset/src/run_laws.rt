//! What holds of each run of a program of the C subset, of each run of flat code, and of programs that agree with a model.

ghost use Rattle.std.specs.Prelude.{◌≡◌, ℕ, ◌+◌, ◌≤◌, List, Option, false, IsSome, IfSome, IsTrue};
ghost use Rattle.og_model.specs.declared.Model.{Model as Process};
ghost use Rattle.og_model.specs.Shown.{Stimulus, has_past, has_stuck, Begins};
ghost use Rattle.og_model.specs.Run.{sdl};
ghost use Rattle.og_ir.specs.declared.Ir.{Ir as Code};
ghost use Rattle.og_ir.specs.Cells.{Cells};
ghost use Rattle.og_ir.specs.Arithmetic.{Trouble};
ghost use Rattle.og_ir.specs.Steps.{Config, Over, Broken, quiet, and_then, exec};
ghost use Rattle.og_csubset.specs.declared.CProgram.{CProgram as Program};
ghost use Rattle.og_csubset.specs.declared.CExpr.{CExpr as Expression, out-CExpr};
ghost use Rattle.og_csubset.specs.Loading.{number_by, is_number};
ghost use Rattle.og_csubset.specs.Step.{cstep, value_by, value_of};
ghost use Rattle.og_csubset.specs.Run.{c_machine, c};
ghost use Rattle.og_csubset.specs.FlatRun.{flat, flat_in_64_bits};
ghost use Rattle.og_csubset.specs.Paced.{paced};
ghost use Rattle.og_csubset.specs.Loading.{Loads};
ghost use Rattle.og_csubset.specs.Kinds.{first_globals};
ghost use Rattle.og_csubset.specs.Forms.{HaveForms, IsSteady};
ghost use Rattle.og_types.specs.declared.Sort.{Sort};
ghost use Rattle.og_ir.specs.declared.Flat.{Flat as Computation, out-Flat};
ghost use Rattle.og_csubset.specs.Fair as fair;
ghost use Rattle.og_csubset.specs.FlatText.{piece_by, flat_piece};
ghost use Rattle.og_csubset.specs.Extension.{Extends, shown_over};
ghost use Rattle.og_csubset.specs.Agreement.{enough, is_stimulus, AreStimuli, SameBehaviour};

/// A run of j + k statements is one of j statements, and then one of k statements from where that one has come to.
pub fn statements_split<E>()
    ensures { (shows : List ℕ → List Cells → Option E) (program : Program) (j k : ℕ) (config : Config)
        → exec (cstep shows program) (j + k) config
        ≡ and_then (exec (cstep shows program) j config) (exec (cstep shows program) k) }
{}

/// A run of a program that is over or broken stays as it is.
pub fn ended_program_stays<E>()
    ensures over { (shows : List ℕ → List Cells → Option E) (program : Program) (n : ℕ) (globals : List Cells)
        → exec (cstep shows program) n (Over globals) ≡ quiet (Over globals) }
    ensures broken { (shows : List ℕ → List Cells → Option E) (program : Program) (n : ℕ) (trouble : Trouble)
        → exec (cstep shows program) n (Broken trouble) ≡ quiet (Broken trouble) }
{}

/// With more statements a program shows the same where nothing was cut short, and otherwise it begins with the same events.
pub fn more_statements_go_on()
    ensures same { (program : Program) (model : Process) (stimuli : List Stimulus) (m n : ℕ)
        → m ≤ n → has_past (c program model stimuli m) ≡ false
        → c program model stimuli n ≡ c program model stimuli m }
    ensures begins { (program : Program) (model : Process) (stimuli : List Stimulus) (m n : ℕ)
        → m ≤ n → Begins (c program model stimuli m) (c program model stimuli n) }
{}

/// The same of flat code.
pub fn more_instructions_go_on()
    ensures same { (ir : Code) (model : Process) (stimuli : List Stimulus) (m n : ℕ)
        → m ≤ n → has_past (flat ir model stimuli m) ≡ false
        → flat ir model stimuli n ≡ flat ir model stimuli m }
    ensures begins { (ir : Code) (model : Process) (stimuli : List Stimulus) (m n : ℕ)
        → m ≤ n → Begins (flat ir model stimuli m) (flat ir model stimuli n) }
    ensures same_in_64_bits { (ir : Code) (model : Process) (stimuli : List Stimulus) (m n : ℕ)
        → m ≤ n → has_past (flat_in_64_bits ir model stimuli m) ≡ false
        → flat_in_64_bits ir model stimuli n ≡ flat_in_64_bits ir model stimuli m }
    ensures begins_in_64_bits { (ir : Code) (model : Process) (stimuli : List Stimulus) (m n : ℕ)
        → m ≤ n → Begins (flat_in_64_bits ir model stimuli m) (flat_in_64_bits ir model stimuli n) }
{}

/// Two programs that agree with one model show the same wherever its meaning ends, and each ends where the other does.
pub fn agreeing_programs_show_the_same()
    ensures enough_statements { (model : Process) (P Q : Program)
        → SameBehaviour model P → SameBehaviour model Q
        → (stimuli : List Stimulus) → AreStimuli model stimuli → (n : ℕ) → 1 ≤ n → has_past (sdl model stimuli n) ≡ false
        → c P model stimuli (enough P n) ≡ c Q model stimuli (enough Q n) }
    ensures some_statements { (model : Process) (P Q : Program)
        → SameBehaviour model P → SameBehaviour model Q
        → (stimuli : List Stimulus) → AreStimuli model stimuli → (m : ℕ) → has_past (c P model stimuli m) ≡ false
        → (k : ℕ) × (c Q model stimuli k ≡ c P model stimuli m) }
{}

/// The value of an expression is made of the values of its parts, and it is a number where they are.
pub fn values_of_parts()
    ensures value { (program : Program) (globals : List Cells) (e : Expression)
        → value_of program globals e ≡ value_by (value_of program globals) program globals (out-CExpr e) }
    ensures number { (program : Program) (e : Expression)
        → is_number program e ≡ number_by (is_number program) program (out-CExpr e) }
{}

/// Flat code that is not stuck with the numbers of 64 bits shows the same with all numbers.
pub fn code_within_64_bits()
    ensures { (ir : Code) (model : Process) (stimuli : List Stimulus) (n : ℕ)
        → has_stuck (flat_in_64_bits ir model stimuli n) ≡ false
        → flat ir model stimuli n ≡ flat_in_64_bits ir model stimuli n }
{}

/// A program that loads with a model that has more variables loads with the model without them, and where it is not stuck it
/// shows the same over the variables of that model.
pub fn larger_models_show_the_same()
    ensures loads { (model larger : Process) → Extends model larger → (program : Program) → Loads program larger
        → Loads program model }
    ensures shows { (model larger : Process) → Extends model larger → (program : Program) (stimuli : List Stimulus) (m : ℕ)
        → has_stuck (c program larger stimuli m) ≡ false
        → c program model stimuli m ≡ shown_over model (c program larger stimuli m) }
{}

/// A program that loads starts with cells of its globals' forms. Each stimulus of the model begins with such cells and a
/// function that is there, and whatever the program does the cells keep their forms, every name, label and function is
/// there, and it is broken by a number, an index or a divisor alone, where each event can be shown.
pub fn loaded_programs_are_steady<E>()
    ensures at_load { (program : Program) (model : Process) → Loads program model
        → HaveForms program.structs program.globals (first_globals program) }
    ensures begins { (program : Program) (model : Process) → Loads program model → (stimulus : Option Stimulus)
        → IfSome stimulus (λ s. IsTrue (is_stimulus model s))
        → (globals : List Cells) → HaveForms program.structs program.globals globals
        → IsSteady program ((c_machine program model).begin stimulus globals) }
    ensures keeps { (program : Program) (model : Process) → Loads program model → (shows : List ℕ → List Cells → Option E)
        → ((name : List ℕ) (globals : List Cells) → IsSome (shows name globals))
        → (n : ℕ) (config : Config) → IsSteady program config
        → IsSteady program (exec (cstep shows program) n config).config }
{}

/// Whether an expression of flat code is a number, and its text, are made of what its parts are.
pub fn fairness_of_parts()
    ensures number { (sorts : List Sort) (ir : Code) (e : Computation)
        → fair.is_number sorts ir e ≡ fair.number_by (fair.is_number sorts ir) sorts ir (out-Flat e) }
    ensures text { (ir : Code) (e : Computation) → flat_piece ir e ≡ piece_by (flat_piece ir) ir (out-Flat e) }
{}

/// Where each instruction takes one statement, code shows what it shows instruction by instruction.
pub fn pace_of_one()
    ensures { (ir : Code) (model : Process) (stimuli : List Stimulus) (n : ℕ)
        → paced (λ function place. 1) ir model stimuli n ≡ flat_in_64_bits ir model stimuli n }
{}
