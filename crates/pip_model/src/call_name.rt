//! What the numbers of calls name.

/// A call on memory: docs/MODEL.md, "The calls".
#[derive(Clone, Copy)]
pub enum MemoryCall {
    CreatePartition,
    DeletePartition,
    CountToMap,
    Prepare,
    Collect,
    AddVAddr,
    RemoveVAddr,
    MappedInChild,
}

/// What a number names: docs/FORMATS.md, "Calls by number".
#[derive(Clone, Copy)]
pub enum CallName {
    /// A call on memory.
    OnMemory(MemoryCall),
    /// The call that switches.
    Yields,
    /// Vcli masks the caller, Vsti unmasks it.
    Masks { masked: bool },
    /// No call has this number.
    Unknown,
}
