//! Laws of places, and examples of the memory that a heap represents. Each law is the contract of a function that does
//! nothing.
ghost use Rattle.model_heap.specs.PlaceLaws.{PlacesAreByPage, NoObjectMeansNone, ObjectsMeanTheirBytes, SlotsHaveRecords, ObjectsAreHeld, HoldsWhereLed, ProtectionLeavesPlaces};

/// The place of an address is the physical page that the address's virtual page is mapped to, and the address's offset
/// in that page.
pub fn places_are_by_page()
    ensures { PlacesAreByPage }
{}

/// Examples: a heap represents a memory with the objects of the heap's filled slots. Each object has its address, and
/// the bytes at the places of its addresses. A physical page holds an object if and only if the object has a byte in
/// the page.
pub fn heaps_mean_their_objects()
    ensures none { NoObjectMeansNone }
    ensures bytes { ObjectsMeanTheirBytes }
    ensures slots { SlotsHaveRecords }
    ensures held { ObjectsAreHeld }
    ensures led { HoldsWhereLed }
{}

/// A page's protection doesn't change the place of any address.
pub fn protection_leaves_places()
    ensures { ProtectionLeavesPlaces }
{}
