//! Laws of the memory that a heap represents, under a read, a store, a free and a new object. Each law is the contract
//! of a function that does nothing.
ghost use Rattle.model_heap.specs.MeaningLaws.{MeaningHasNext, MeaningHasObjects, SameBytesSameMeaning, StoreChangesMeaning, FreeChangesMeaning, NewChangesMeaning, ReadGivesBytes, ByteIsAtItsPlace, LiveObjectsAreApart, HolderIsOne, NoneIsHolder, SlotIsTheOnlyOne, TiedRecordsAreBelow, SlotHasRecord, RecordHasSlot};

/// The memory that a heap represents has the heap's next serial. If the serials of all records are below the next
/// serial, the memory contains the object of each serial's record, and no other object.
pub fn meaning_has_objects()
    ensures next { MeaningHasNext }
    ensures objects { MeaningHasObjects }
{}

/// If no serial's record changes, and no byte of a recorded object changes, the memory that the heap represents doesn't
/// change. The bytes may be stored at other places than before.
pub fn meaning_stays_with_bytes()
    ensures { SameBytesSameMeaning }
{}

/// If bytes are written at the places of a part of one object, and no other byte of a live object changes, the heap
/// then represents its earlier memory with these bytes stored in that object.
pub fn store_changes_meaning()
    ensures { StoreChangesMeaning }
{}

/// If an object whose serial is below the next serial is removed from the table, the heap then represents its earlier
/// memory without that object.
pub fn free_changes_meaning()
    ensures { FreeChangesMeaning }
{}

/// If an object of zeros is placed in a sound table, and no byte of a live object changes, the heap then represents its
/// earlier memory with that object added. This requires that all serials in the table are below the next serial.
pub fn new_changes_meaning()
    ensures { NewChangesMeaning }
{}

/// The bytes of an object are the bytes at the places of the object's addresses.
pub fn reads_give_bytes()
    ensures range { ReadGivesBytes }
    ensures byte { ByteIsAtItsPlace }
{}

/// If a memory is tied to a sound table, no two live objects have an address in common. In that case, the holder of a
/// live object's address is this object. An address that is in no live object has no holder.
pub fn live_objects_are_apart()
    ensures apart { LiveObjectsAreApart }
    ensures holder { HolderIsOne }
    ensures none { NoneIsHolder }
{}

/// In a sound table that is tied to a memory, an object is in only one slot.
pub fn slots_are_only_ones()
    ensures { SlotIsTheOnlyOne }
{}

/// If a sound table is tied to the memory that its heap represents, the record of a filled slot's serial is the record
/// of that slot, and the serials of all records are below the next serial. In a sound table, each record is the record
/// of a filled slot.
pub fn records_are_of_slots()
    ensures below { TiedRecordsAreBelow }
    ensures slot { SlotHasRecord }
    ensures record { RecordHasSlot }
{}
