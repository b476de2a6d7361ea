//! The numbers of the calls, and what a yield can name in place of a handler's vector: docs/FORMATS.md, "Calls by
//! number". No call has any other number.

/// createPartition.
pub const CREATE_PARTITION: u32 = 0;
/// deletePartition.
pub const DELETE_PARTITION: u32 = 1;
/// countToMap.
pub const COUNT_TO_MAP: u32 = 2;
/// prepare.
pub const PREPARE: u32 = 3;
/// collect.
pub const COLLECT: u32 = 4;
/// addVAddr.
pub const ADD_VADDR: u32 = 5;
/// removeVAddr.
pub const REMOVE_VADDR: u32 = 6;
/// mappedInChild.
pub const MAPPED_IN_CHILD: u32 = 7;
/// yield.
pub const YIELD: u32 = 8;
/// Vcli.
pub const VCLI: u32 = 10;
/// Vsti.
pub const VSTI: u32 = 11;

/// The vector in whose block a partition is saved at faults, traps and interrupts.
pub const SAVED: u32 = 63;
/// A yield names this in place of a vector if its caller isn't to be saved.
pub const NOT_SAVED: u32 = 256;
