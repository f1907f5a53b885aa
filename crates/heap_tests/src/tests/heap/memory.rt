//! Tests of calls that allocate, with enough memory.
use mesh_arena::Arena;
use mesh_pagemap::PageMap;
use mesh_store::Store;

#[test]
fn an_arena_takes_memory(rt: HostRuntime) {
    assert!(rt; Arena::new(rt.alloc(), 2).is_ok());
}

#[test]
fn a_page_map_takes_memory(rt: HostRuntime) {
    assert!(rt; PageMap::new(rt.alloc()).is_ok());
}

#[test]
fn a_store_takes_memory(rt: HostRuntime) {
    assert!(rt; Store::open(rt.alloc(), 2).is_ok());
}
