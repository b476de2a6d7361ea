//! A translation cache: 64 places and two counts.
ghost use Rattle.std.specs.Prelude.{◌≡◌, ℕ, ◌<◌, ◌/◌, ◌%◌, IfSome, None, if◌then◌else◌, is_some, length, option_map};
ghost use Rattle.std.specs.Prelude.{replicate, slice_index_or};
ghost use Rattle.pip_model.specs.Tree.{vpage};
ghost use Rattle.pip_tlb.specs.Kept.{MayFetch};

use bitflags::Flags;
use pip_base::{Frame, Rights, VPage};
use pip_model::Entry;
use std::marker::Model;

// A page that a partition may execute, and the address at which the partition has it.
#[derive(Clone, Copy)]
struct Code {
    part: Frame,
    base: u32,
    page: Frame,
}

/// A translation cache: 64 places, each empty or with the page and the rights of one partition at one virtual page, and
/// how many lookups hit and missed. A virtual page has one place, that of its number modulo 64, so an entry replaces
/// one of another partition or virtual page with the same place.
#[derive(Drop)]
pub struct Cache {
    places: [Option<Entry>; 64],
    // What was kept of the last fetch. None once a place changes.
    code: Option<Code>,
    // For each eight places, whether one of them may hold an entry.
    used: [bool; 8],
    hits: u64,
    misses: u64,
}

impl Model for Cache {
    ghost use Rattle.std.specs.Prelude.{◌≡◌, ◌<◌, ◌^◌, IfSome, length};
    ghost use Rattle.pip_model.specs.Cache.{Places};
    ghost use Rattle.pip_tlb.specs.Kept.{IsKeptForFetches};
    ghost use Rattle.pip_tlb.specs.Used.{AreUnused};

    ghost Value = { Places };

    ghost view = { λ c. record { at = c.places; hits = c.hits; misses = c.misses } };

    ghost invariant = { λ c. (length c.places ≡ 64) × (c.hits < 2 ^ 64) × (c.misses < 2 ^ 64)
        × AreUnused c.places c.used
        × IfSome c.code (λ k. IsKeptForFetches c.places k.part k.base k.page) };
}

// Empty places. Their number is a parameter, so that the check doesn't compute a list of 64.
fn no_entries<const N: usize>() -> [Option<Entry>; N]
    ensures { result ≡ replicate N None }
{
    [None; N]
}

impl Cache {
    ghost use Rattle.pip_model.specs.Cache.{without_entries, with_new_entry, holding, after_lookup, no_places};
    ghost use Rattle.pip_model.specs.Cache.{one_more, page_and_rights};

    /// A cache with empty places and both counts at 0.
    #[tactic(auto, unfolding(pip_model::specs::Cache::no_entries))]
    pub fn new() -> Self
        ensures { result ≡ no_places }
    {
        Cache {
            places: no_entries(),
            code: None,
            used: [false; 8],
            hits: 0,
            misses: 0,
        }
    }

    // What the place of `v` holds of partition `part` at `v`.
    #[inline(always)]
    fn held(&self, part: Frame, v: VPage) -> Option<Entry>
        ensures { result ≡ holding self.now part v }
    {
        let entry = self.places[(v.number() % 64) as usize]?;
        if entry.part == part && entry.vpage == v {
            return Some(entry);
        }
        None
    }

    /// The page and the rights that the place of `v` holds of partition `part` at `v`, if it holds any. This counts as
    /// a hit or as a miss; a count stops at 2^64 - 1.
    #[inline(always)]
    pub fn lookup(&mut self, part: Frame, v: VPage) -> Option<(Frame, Rights)>
        ensures answer { result ≡ option_map page_and_rights (holding self.old part v) }
        ensures counts { self.new ≡ after_lookup self.old part v }
    {
        if let Some(entry) = self.held(part, v) {
            self.hit();
            return Some((entry.page, entry.rights));
        }
        self.misses = self.misses.saturating_add(1);
        None
    }

    // Counts a hit. Testing first costs an instruction less than a sum that saturates.
    #[inline(always)]
    fn hit(&mut self)
        ensures { self.new ≡ record self.old { hits = one_more self.old.hits } }
    {
        if self.hits != u64::MAX {
            self.hits += 1;
        }
    }

    /// The page from which `part` fetches at `pc`, a multiple of 4, if the last fetch that was [kept](Cache::keep) came
    /// from the same page, and no place has changed since. This counts as a hit: [`lookup`](Cache::lookup) would find
    /// the same, but later. If it answers None, nothing is counted.
    #[inline(always)]
    pub fn fetch_again(&mut self, part: Frame, pc: u32) -> Option<Frame>
        ensures page { IfSome result (λ page. (pc % 4 ≡ 0) × MayFetch self.old.at part (vpage pc) page) }
        ensures counts { self.new ≡ (if is_some result then after_lookup self.old part (vpage pc) else self.old) }
    {
        // The address without the index of its word in the page: the page's own only where it is a multiple of 4.
        let base = pc - pc % 4096 / 4 * 4;
        if let Some(code) = self.code
            && code.part == part
            && code.base == base
        {
            self.hit();
            return Some(code.page);
        }
        None
    }

    /// Keeps what the place of `v` holds of partition `part` at `v` for [`fetch_again`](Cache::fetch_again), if the
    /// partition may execute it.
    #[inline(always)]
    pub fn keep(&mut self, part: Frame, v: VPage)
        ensures { self.new ≡ self.old }
    {
        if let Some(entry) = self.held(part, v)
            && entry.rights.contains(Rights::EXEC)
        {
            self.code = Some(Code {
                part,
                base: 4096 * v.number(),
                page: entry.page,
            });
        }
    }

    /// Puts the page and the rights of partition `part` at `v` into the place of `v`, and replaces what it held.
    /// Nothing is counted.
    pub fn fill(&mut self, part: Frame, v: VPage, page: Frame, rights: Rights)
        ensures { self.new ≡ with_new_entry self.old record { part = part; vpage = v; page = page; rights = rights } }
    {
        let place = (v.number() % 64) as usize;
        self.code = None;
        self.used[place / 8] = true;
        self.places[place] = Some(Entry {
            part,
            vpage: v,
            page,
            rights,
        });
    }

    /// Empties all places. The counts stay.
    pub fn empty(&mut self)
        ensures { self.new ≡ without_entries self.old }
    {
        let used = self.used;
        for g in 0..8 {
            if used[g] {
                self.empty_eight(g);
            }
        }
    }

    // Empties eight places.
    fn empty_eight(&mut self, g: usize)
        requires { g < 8 }
        ensures here { (k : ℕ) → k / 8 ≡ g → slice_index_or self.new.at k None ≡ None }
        ensures kept { (k : ℕ) → slice_index_or self.old.at k None ≡ None → slice_index_or self.new.at k None ≡ None }
        ensures length { length self.new.at ≡ length self.old.at }
        ensures counts { (self.new.hits ≡ self.old.hits) × (self.new.misses ≡ self.old.misses) }
    {
        self.code = None;
        for i in 0..8 {
            self.places[8 * g + i] = None;
        }
        self.used[g] = false;
    }

    /// How many lookups hit and how many missed, each at most 2^64 - 1.
    pub fn counts(&self) -> (u64, u64)
        ensures { result ≡ (self.now.hits, self.now.misses) }
    {
        (self.hits, self.misses)
    }
}

impl Default for Cache {
    ghost use Rattle.std.specs.Prelude.{◌≡◌};
    ghost use Rattle.pip_model.specs.Cache.{no_places};

    ghost is_default = { λ c. c ≡ no_places };

    fn default() -> Self {
        Cache::new()
    }
}
