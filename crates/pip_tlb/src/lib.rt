//! The translation cache of a processor, which keeps the rows that accesses found: docs/MODEL.md, "Translation caches".
//!
//! A [`Cache`] knows no tree and no memory: it holds what [`Cache::fill`] gave it. Its caller fills it with rows as
//! they are, and empties it when a row may go or a page may be hidden. In clauses it is the model's `Places`. `lookup`
//! gives what the place of a virtual page holds for this partition there, and counts a hit or a miss; `fill` puts an
//! entry into one place; `empty` empties all 64 and leaves the counts. `keep` and `fetch_again` make fetches from one
//! page cheap, and clauses see no difference between a cache that keeps a page and one that doesn't.
#![tactic(auto)]

mod cache;

pub use cache::Cache;
