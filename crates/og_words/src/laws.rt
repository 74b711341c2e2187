//! Laws of words, each as the contract of a function that does nothing.
ghost use Rattle.std.specs.Prelude.{◌≡◌, ℕ, List, [], ◌∷◌, codes};
ghost use Rattle.og_words.specs.Words.{Command, Check, Compile, Run, Simulate, AsksFor, IsNoCommand, AreDifferent};

/// Words ask for at most one command.
pub fn one_command()
    ensures { (words : List (List ℕ)) (command other : Command) → AsksFor words command → AsksFor words other → command ≡ other }
{}

/// Words of each command, and words of none, as worked out by hand; names of files that may stand together, and such as may not.
pub fn words_as_worked_out()
    ensures check { AsksFor (codes "check" ∷ codes "m.pr" ∷ []) (Check (codes "m.pr" ∷ [])) }
    ensures compile { AsksFor (codes "cc" ∷ codes "m.pr" ∷ []) (Compile (codes "m.pr" ∷ [])) }
    ensures run { AsksFor (codes "run" ∷ codes "m.pr" ∷ codes "p.c" ∷ codes "s.stim" ∷ codes "--steps" ∷ codes "50" ∷ []) (Run (codes "m.pr" ∷ []) (codes "p.c") (codes "s.stim") 50) }
    ensures simulate { AsksFor (codes "sim" ∷ codes "m.pr" ∷ codes "s.stim" ∷ []) (Simulate (codes "m.pr" ∷ []) (codes "s.stim") 1000000) }
    ensures no_stem { IsNoCommand (codes "cc" ∷ codes ".pr" ∷ []) }
    ensures no_process { IsNoCommand (codes "cc" ∷ codes "d.asn" ∷ []) }
    ensures in_any_order { AsksFor (codes "check" ∷ codes "d.asn" ∷ codes "m.pr" ∷ codes "e.asn1" ∷ []) (Check (codes "d.asn" ∷ codes "m.pr" ∷ codes "e.asn1" ∷ [])) }
    ensures two_processes { IsNoCommand (codes "check" ∷ codes "m.pr" ∷ codes "n.pr" ∷ []) }
    ensures twice { AreDifferent (codes "m.pr" ∷ codes "d.asn" ∷ codes "m.pr" ∷ []) → ⊥ }
{}
