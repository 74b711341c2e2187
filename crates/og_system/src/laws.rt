//! Laws of systems and blocks, each as the contract of a function that does nothing.
ghost use Rattle.std.specs.Prelude.{◌≡◌, ◌↔◌, ℕ, List, [], ◌∷◌, None, Some};
ghost use Rattle.og_ast.specs.declared.system.Unit.{Unit as UnitTree};
ghost use Rattle.og_system.specs.Bodies.{Body, Home, bodies, home_of, violations, first_violation};
ghost use Rattle.og_system.specs.Examples.{NothingAtAll, ReferenceAlone, OneBody, TwoBodies, SameFileTwice, ReferenceInAnotherCase, BodyWithoutReference, ReferenceWithoutBody, ReferenceToABodyInItsBlock, ReferenceToASignal, ReferenceToAType, RouteToAnotherProcess, RouteToItsBlock, ChannelToAProcess, ChannelWithoutItsSignal, Connected, ConnectedTheWrongWayRound, HomeByReference, FirstBody};
ghost use Rattle.og_system.specs.WayExamples.{NoWays, RoutesOfTheProcess, RoutesOfOthers, RouteBeforeChannel, ChannelsAlone, ChannelsOfOthers, ToItself, VisibleSignals};
ghost use Rattle.og_system.specs.ClosingExamples.{StopCloses, TaskAloneDoesNot, NothingDoesNot, EachBranchCloses, BranchesWithoutElse, OneBranchDoesNot, ElseDoesNot, TaskBehindADecision, DecisionInABranch, StartAndStop, NoStart, NamedStartAlone, InAState, CompositeAndPartition, ProcedureOfASystem};

/// There is no first violation exactly where no rule is violated.
pub fn first_of_violations()
    ensures { (file : ℕ) (types : List (List ℕ)) (units : List UnitTree) → (first_violation file types units ≡ None) ↔ (violations file types units ≡ []) }
{}

/// Where no rule is violated there is one body, and it belongs to a block.
pub fn one_process()
    ensures one { (file : ℕ) (types : List (List ℕ)) (units : List UnitTree) → violations file types units ≡ [] → (body : Body) × (bodies units ≡ body ∷ []) }
    ensures home { (file : ℕ) (types : List (List ℕ)) (units : List UnitTree) (body : Body) → violations file types units ≡ [] → bodies units ≡ body ∷ [] → (home : Home) × (home_of units body ≡ Some home) }
{}

/// Worked examples of bodies and names.
pub fn examples()
    ensures counts { NothingAtAll × ReferenceAlone × OneBody × TwoBodies × SameFileTwice }
    ensures references { ReferenceInAnotherCase × BodyWithoutReference × ReferenceWithoutBody × ReferenceToABodyInItsBlock × ReferenceToASignal × ReferenceToAType }
    ensures paths { RouteToAnotherProcess × RouteToItsBlock × ChannelToAProcess × ChannelWithoutItsSignal × Connected × ConnectedTheWrongWayRound }
    ensures homes { HomeByReference × FirstBody }
    ensures ways { NoWays × RoutesOfTheProcess × RoutesOfOthers × RouteBeforeChannel × ChannelsAlone × ChannelsOfOthers × ToItself × VisibleSignals }
{}

/// Worked examples of transitions that close, and of what is violated.
pub fn closing_examples()
    ensures closing { StopCloses × TaskAloneDoesNot × NothingDoesNot × EachBranchCloses × BranchesWithoutElse × OneBranchDoesNot × ElseDoesNot × TaskBehindADecision × DecisionInABranch }
    ensures violated { StartAndStop × NoStart × NamedStartAlone × InAState × CompositeAndPartition × ProcedureOfASystem }
{}
