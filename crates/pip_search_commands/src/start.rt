//! Where a search begins.

/// Where a search begins: after that many steps of a run, by the schedule of a seed, which isn't 0.
#[derive(Clone, Copy)]
pub struct Start {
    pub count: u32,
    pub seed: u32,
}
