//! Why an access fails.
use thiserror::Error;

/// Why the tables give an access no page. They are tested in this order.
#[derive(Clone, Copy, Debug, PartialEq, Eq, Error)]
pub enum MmuFault {
    /// The partition has no row at the virtual page.
    #[error("the page isn't mapped")]
    Unmapped,
    /// The page is configuration of a partition.
    #[error("the page is configuration of a partition")]
    Hidden,
    /// The row lacks READ for a load, WRITE for a store or EXEC for a fetch.
    #[error("the right to the page is lacking")]
    Right,
}

/// Why an access fails. The alignment is tested first.
#[derive(Clone, Copy, Debug, PartialEq, Eq, Error)]
pub enum AccessFault {
    /// A word is accessed at an address that isn't a multiple of 4.
    #[error("the address of a word isn't a multiple of 4")]
    Alignment,
    /// The tables give it no page.
    #[error("{0}")]
    Mmu(MmuFault),
}
