//! Laws of what systems and blocks declare, each as the contract of a function that does nothing.
ghost use Rattle.std.specs.Prelude.{◌≡◌, ◌↔◌, ℕ, List, [], None, Some, All, Contains};
ghost use Rattle.og_places.specs.Contents.{places_in_units};
ghost use Rattle.og_ast.specs.declared.ground.Name.{Name};
ghost use Rattle.og_ast.specs.declared.system.BlockTree.{BlockTree};
ghost use Rattle.og_ast.specs.declared.system.SystemTree.{SystemTree};
ghost use Rattle.og_ast.specs.declared.system.Unit.{Unit as UnitTree};
ghost use Rattle.og_base.specs.declared.Violation.{Violation};
ghost use Rattle.og_system.specs.Scopes.{key, seen_in_system, seen_in_block};
ghost use Rattle.og_declared.specs.Spaces.{signals_in, spaces};
ghost use Rattle.og_declared.specs.Sorts.{is_seen_in_system, is_seen_in_block, sorts_in};
ghost use Rattle.og_declared.specs.Violations.{violations, first_violation};
ghost use Rattle.og_declared.specs.Laws.{AllDiffer, HasNoTwoUnderscores, IsOfType};
ghost use Rattle.og_declared.specs.Examples.{SignalTwice, SignalInTwoBlocks, SignalBehindItsBlock, SignalInTwoFiles, OneNameInTwoSpaces, ChannelTwice, BlockTwice, ProcedureTwice, RouteTwice, RouteInTwoBlocks, BodyTwiceInABlock, BodyTwiceAtFileLevel, BodyInABlockAndAtFileLevel, ReferenceTwice, TwoUnderscores, TwoUnderscoresTwice, TwoUnderscoresOfASystem, TwoUnderscoresOfABody, TypeOfAsn, BuiltInTypes, NoSuchType, HyphensOfAType, TypeThatIsAChannel, TypeThatIsARoute, TypeThatIsARouteElsewhere, TypeThatIsAConstant, TypeThatIsAProcedure};

/// There is no first violation exactly where no rule is violated.
pub fn first_of_violations()
    ensures { (types constants : List (List ℕ)) (units : List UnitTree) → (first_violation types constants units ≡ None) ↔ (violations types constants units ≡ []) }
{}

/// Where no rule is violated, no two signals of all files have one name, and no two names of any space; no declared name has
/// two underscores side by side; and each parameter of a signal has a type.
pub fn without_violations()
    ensures signals { (types constants : List (List ℕ)) (units : List UnitTree) → violations types constants units ≡ [] → AllDiffer (signals_in units) }
    ensures spaces { (types constants : List (List ℕ)) (units : List UnitTree) → violations types constants units ≡ [] → All AllDiffer (spaces units) }
    ensures spelling { (types constants : List (List ℕ)) (units : List UnitTree) → violations types constants units ≡ [] → All (All HasNoTwoUnderscores) (spaces units) }
    ensures sorts { (types constants : List (List ℕ)) (units : List UnitTree) → violations types constants units ≡ [] → All (IsOfType types) (sorts_in units) }
{}

/// Each violation stands at a place that the trees of the units keep, and so does the first one.
pub fn violations_stand_in_units()
    ensures each { (types constants : List (List ℕ)) (units : List UnitTree) → All (λ v. Contains (places_in_units units) v.place) (violations types constants units) }
    ensures first { (types constants : List (List ℕ)) (units : List UnitTree) (v : Violation) → first_violation types constants units ≡ Some v → Contains (places_in_units units) v.place }
{}

/// What is seen where the type of a parameter stands is what systems and blocks see.
pub fn seen_as_in_systems()
    ensures system { (constants : List (List ℕ)) (units : List UnitTree) (system : SystemTree) (name : Name) → is_seen_in_system constants units system (key name) ≡ (seen_in_system units constants system).any name }
    ensures block { (constants : List (List ℕ)) (units : List UnitTree) (system : SystemTree) (block : BlockTree) (name : Name) → is_seen_in_block constants units system block (key name) ≡ (seen_in_block units constants system block).any name }
{}

/// Worked examples.
pub fn examples()
    ensures signals { SignalTwice × SignalInTwoBlocks × SignalBehindItsBlock × SignalInTwoFiles }
    ensures spaces { OneNameInTwoSpaces × ChannelTwice × BlockTwice × ProcedureTwice × RouteTwice × RouteInTwoBlocks }
    ensures bodies { BodyTwiceInABlock × BodyTwiceAtFileLevel × BodyInABlockAndAtFileLevel × ReferenceTwice }
    ensures underscores { TwoUnderscores × TwoUnderscoresTwice × TwoUnderscoresOfASystem × TwoUnderscoresOfABody }
    ensures types { TypeOfAsn × BuiltInTypes × NoSuchType × HyphensOfAType }
    ensures others { TypeThatIsAChannel × TypeThatIsARoute × TypeThatIsARouteElsewhere × TypeThatIsAConstant × TypeThatIsAProcedure }
{}
