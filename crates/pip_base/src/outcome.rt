//! What calls and events answer.
ghost use Rattle.std.specs.Prelude.{◌≡◌};
ghost use Rattle.pip_base.specs.Status.{status_number};

/// The status of a call, in the order of the numbers. A call tests for the refusals in this order, except that
/// `BadVector` comes before `Running`.
#[derive(Clone, Copy, Debug, PartialEq, Eq)]
pub enum Status {
    /// The call did what it is for. Every other status is a refusal.
    Ok,
    /// No call has the number.
    UnknownCall,
    /// An address is no multiple of 4096.
    NotAligned,
    /// An address is 0.
    NullPage,
    /// Two of the pages are the same.
    Repeated,
    /// No child's descriptor is at the address.
    NotChild,
    /// The caller doesn't map the page.
    NotMapped,
    /// A child of the caller has the page already.
    NotFree,
    /// The rights can't be given, or the caller's own don't suffice.
    NoRight,
    /// The child has no table for the address.
    NoTable,
    /// The child maps a page at the address already.
    Taken,
    /// The child maps no page at the address.
    Absent,
    /// A child of the child has the page.
    LentOn,
    /// The child's table still maps a page.
    NotEmpty,
    /// The partition runs; at a deletion, it or one below it.
    Running,
    /// The vector isn't below 256.
    BadVector,
    /// The target has no handler for the vector.
    NoHandler,
    /// No call answers it: the number is kept free.
    NoContext,
    /// The caller's block can't be saved to.
    BadSave,
}

impl Status {
    /// The number that a call puts into r0: from 0 for `Ok` to 18 for `BadSave`.
    pub const fn number(self) -> u32
        ensures { result ≡ status_number self }
    {
        match self {
            Status::Ok => 0,
            Status::UnknownCall => 1,
            Status::NotAligned => 2,
            Status::NullPage => 3,
            Status::Repeated => 4,
            Status::NotChild => 5,
            Status::NotMapped => 6,
            Status::NotFree => 7,
            Status::NoRight => 8,
            Status::NoTable => 9,
            Status::Taken => 10,
            Status::Absent => 11,
            Status::LentOn => 12,
            Status::NotEmpty => 13,
            Status::Running => 14,
            Status::BadVector => 15,
            Status::NoHandler => 16,
            Status::NoContext => 17,
            Status::BadSave => 18,
        }
    }
}

/// What an event answers. Partitions are named by the frame numbers of their descriptors.
#[derive(Clone, Copy, Debug, PartialEq, Eq)]
pub enum Outcome {
    /// The word or byte that was read.
    Word(u32),
    /// The event was done and has no value.
    Done,
    /// A call's status, and its value, which is 0 at every refusal.
    Reply { status: Status, value: u32 },
    /// The processor entered `to`. `from` is 0 where it ran nothing; `vector` is below 256.
    Switched { from: u32, to: u32, vector: u32 },
    /// Nobody handles the vector that `from` raised; the processor runs nothing now.
    Parked { from: u32, vector: u32 },
    /// The processor runs nothing.
    Idle,
}
