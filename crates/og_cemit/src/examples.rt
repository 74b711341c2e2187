//! Structs and statements of flat code over a few types, worked out by hand. The texts stand in specs/StructExamples.antt.
ghost use Rattle.og_cemit.specs.StructExamples.{StructsOfTypes, GlobalsOfSlots, OtherPrefix, SetsAnItem, SetsAnAlternative, CopiesAStruct};

/// Types become structs, slots become globals, and paths become members and elements, as worked out by hand.
pub fn structs_are_made()
    ensures structs_of_types { StructsOfTypes }
    ensures globals_of_slots { GlobalsOfSlots }
    ensures other_prefix { OtherPrefix }
    ensures sets_an_item { SetsAnItem }
    ensures sets_an_alternative { SetsAnAlternative }
    ensures copies_a_struct { CopiesAStruct }
{}
