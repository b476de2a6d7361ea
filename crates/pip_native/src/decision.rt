//! What a monitor decided.
use pip_base::Status;

/// The child that was chosen, by its place among the children.
#[derive(Clone, Copy, Debug, PartialEq, Eq)]
pub enum Decision {
    /// The processor entered the child.
    Ran { child: u32 },
    /// The call was refused with this status, and the child is not alive any more.
    Dropped { child: u32, status: Status },
    /// No child is alive. Nothing was done.
    Nobody,
}
