// What a cache has of an object at whatever vector, and what it has once that was taken out. The clauses say it of every
// cache; here is one of two entries.
use client_cache::Cache;
use ids_core::{NoMemory, ObjectId, Sort};
use samples::{counter, single};
use std::alloc::Global;
use std::test::Fail;
use tx_core::State;

// A cache of two counters, each as it is at first, at the vectors 3 and 4.
fn cache_of(alloc: Global, first: &ObjectId, second: &ObjectId) -> Result<Cache, NoMemory> {
    let mut cache = Cache::new(alloc, 2)?;
    cache.keep(first, &single(3), State::empty(alloc, Sort::Counter)?)?;
    cache.keep(second, &single(4), State::empty(alloc, Sort::Counter)?)?;
    Ok(cache)
}

// Whether the cache has the object at the vector of one entry with this number.
fn is_at(cache: &Cache, object: &ObjectId, seq: u32) -> bool {
    match cache.peek(object) {
        Some(vector) => vector == single(seq),
        None => false,
    }
}

#[test]
fn a_look_leaves_the_order(rt: HostRuntime) -> Result<(), Fail> {
    let (a, b, c) = (counter("a")?, counter("b")?, counter("c")?);
    let mut cache = cache_of(rt.alloc(), &a, &b)?;
    assert!(rt; is_at(&cache, &a, 3) && is_at(&cache, &b, 4));
    assert!(rt; cache.peek(&c).is_none());
    cache.keep(&c, &single(5), State::empty(rt.alloc(), Sort::Counter)?)?;
    assert!(rt; cache.peek(&a).is_none());
    assert!(rt; is_at(&cache, &b, 4) && is_at(&cache, &c, 5));
    Ok(())
}

#[test]
fn an_entry_is_taken_out_once(rt: HostRuntime) -> Result<(), Fail> {
    let (a, b) = (counter("a")?, counter("b")?);
    let mut cache = cache_of(rt.alloc(), &a, &b)?;
    assert!(rt; cache.forget(&a));
    assert!(rt; !cache.forget(&a));
    assert!(rt; cache.peek(&a).is_none() && is_at(&cache, &b, 4));
    Ok(())
}
