//! One partition in frames: its rows and its tables.
//!
//! A partition is named by the frame of its descriptor, `part`. Each function here needs that the memory holds a
//! partition of this name (`HasNode`): that its descriptor, directories, tables and list pages are different frames
//! with the words of docs/FORMATS.md. `look` gives the row of a virtual page in at most 9 steps, None exactly if the
//! partition doesn't map it; `leaf_word`, `given` and `place_above` give one word of it in at most 3; `is_table_empty`
//! takes at most 1026. Each write leads from a node with some rows to the same node with one row put, removed or
//! changed, or with one table more or less (removing a table removes its rows). All frames that are not the node's
//! stay.
//!
//! Whether a partition is masked, and the root's pending lines, are facts about the whole tree: reads give what the
//! tree says, and after a write the frames lay out the tree in which that alone has changed (pip_model's
//! proofs/Frames/ControlLays).
#![tactic(auto)]

mod control;
mod install;
mod level;
mod lists;
mod reads;
mod row;
mod table_roots;
mod writes;

pub use control::{is_masked, pending, set_masked, set_pending};
pub use install::{install_table, remove_table};
pub use reads::{
    given, has_table, is_table_empty, leaf_word, look, next_row, next_tables, place_above,
    table_for,
};
pub use row::Row;
pub use writes::{map, set_given, set_user, unmap};
