//! What a partition reaches at a virtual address, and its loads, stores and fetches there: docs/MODEL.md, "What an
//! access reaches".
//!
//! A partition is named by the frame of its descriptor, `part`. Each function here needs that the memory lays out a
//! sound tree with a partition of this name (`HasPartition`), and answers what every such tree gives.
//!
//! [`translate`], [`load`] and [`store`] read the tables: after at most three words `translate` gives the frame and the
//! index that the model's `reach` gives, or its fault. `load` and `store` test the alignment first. After a store the
//! memory lays out the model's tree with that word or byte written, which is sound; after a fault no word has changed.
//! [`translate_cached`], [`load_through`], [`fetch_through`] and [`store_through`] ask a translation cache first, and
//! answer the same wherever the cache's entries are rows that partitions have now (`Agrees`), which they are afterwards
//! too; the cache is then the model's `cache_after_access`, whatever it held, and unchanged after an access that isn't
//! aligned. A translation that hits reads no word, a load or store that hits at most one.
#![tactic(auto)]

mod accesses;
mod around;
mod bytes;
mod cached;
mod faults;
mod translation;

pub use accesses::{load, store};
pub use cached::{fetch_through, load_through, store_through, translate_cached};
pub use faults::{AccessFault, MmuFault};
pub use translation::translate;
