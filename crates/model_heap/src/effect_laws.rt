//! Laws of the effects of mesh steps on page map, bytes and free pages. Each is the contract of a function that does
//! nothing.
ghost use Rattle.model_heap.specs.EffectLaws.{ProtectsOnePage, RemapsOnePage, UnprotectsOnePage, ReleasesOnePage, UnwindsOnePage, CopiesNothing, CopiesTwoBytes, CopiesOverPages, CopyLeavesPages, StepsProtect, UnwindingProtects, OthersKeepProtection, ProtectionIsOfOne, LeadIsOfOne, FreeIsOfOne, CopiedAreTheSame, OtherBytesStay};

/// Examples of the effect of each kind of step: for a source with two members of one page each, and for a source with
/// two members of three pages each.
#[tactic(auto, unfolding(model_words::specs::Classes::pages_of, model_words::specs::Classes::slots_of))]
pub fn steps_have_effects()
    ensures protects { ProtectsOnePage }
    ensures remaps { RemapsOnePage }
    ensures unprotects { UnprotectsOnePage }
    ensures releases { ReleasesOnePage }
    ensures unwinds { UnwindsOnePage }
{}

/// A copy writes the bytes of the slot's object, across page ends too. It writes nothing if the slot has no object.
#[tactic(auto, unfolding(model_words::specs::Classes::pages_of, model_words::specs::Classes::slots_of))]
pub fn copies_have_effects()
    ensures none { CopiesNothing }
    ensures bytes { CopiesTwoBytes }
    ensures pages { CopiesOverPages }
    ensures alone { CopyLeavesPages }
{}

/// If the formula `is_protected` gives the read-only pages of a mesh's source before a step, the formula gives them
/// after the step too. This requires that the source's virtual pages are all different. No step of a mesh changes the
/// protection of a page outside the source.
pub fn effects_are_by_formula()
    ensures steps { StepsProtect }
    ensures unwinding { UnwindingProtects }
    ensures others { OthersKeepProtection }
{}

/// A protect, an unprotect and a remap each change the page map at one virtual page only. A release frees one physical
/// page, and changes no other.
pub fn pages_change_alone()
    ensures protection { ProtectionIsOfOne }
    ensures lead { LeadIsOfOne }
    ensures free { FreeIsOfOne }
{}

/// A copy writes the byte at each copied offset of the source's span to the same offset of the destination's span. This
/// is true if no two copied offsets have the same place in the destination's span. The copy changes no other byte.
pub fn copied_bytes_are_the_same()
    ensures copied { CopiedAreTheSame }
    ensures others { OtherBytesStay }
{}
