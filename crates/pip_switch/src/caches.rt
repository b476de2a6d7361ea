//! The translation caches of the processors.
ghost use Rattle.std.specs.Prelude.{◌≡◌, ◌≤◌, length};
ghost use Rattle.pip_model.specs.Cache.{all_emptied, empty_caches};

use arrayvec::ArrayVec;
use pip_tlb::Cache;

/// The caches of 1 to 4 processors.
pub(crate) type Caches = ArrayVec<Cache, 4>;

/// Empty caches for `count` processors, at most 4.
pub(crate) fn new_caches(count: u32) -> Caches
    requires { count ≤ 4 }
    ensures caches { result.items ≡ empty_caches count }
    ensures count { length result.items ≡ count }
{
    let mut caches = ArrayVec::new();
    for _i in 0..count {
        caches.push(Cache::new());
    }
    caches
}

/// Empties all of them.
pub(crate) fn empty_all(caches: &mut Caches)
    ensures { caches.new.items ≡ all_emptied caches.old.items }
{
    for i in 0..caches.len() {
        caches[i].empty();
    }
}
