//! What a translation cache holds.
use pip_base::{Frame, Rights, VPage};

/// The page and the rights of a partition's row at a virtual page, as an access found them. The partition is named by
/// the frame of its descriptor.
#[derive(Clone, Copy, Debug, PartialEq, Eq)]
pub struct Entry {
    pub part: Frame,
    pub vpage: VPage,
    pub page: Frame,
    pub rights: Rights,
}
