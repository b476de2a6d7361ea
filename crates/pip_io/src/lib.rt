//! Sources and sinks of bytes whose faults are counted, both together, and the search for a newline.
//!
//! What a source tells (`Remaining`) is the bytes that are left, if it reveals them, and what a sink tells (`Writing`)
//! is what it took; each also tells a count of faults that never falls. A call that fails raises the count by one and
//! has read or taken nothing; a call that succeeds leaves the count as it was. What a sink took (`Taken`) is what went
//! out, followed by what the sink holds. A text *appends* to it (`Appends`), and `flush` sends out what is buffered.
//! `write_all` gives the sink the whole text, or a prefix that isn't all of it; `write_out` also flushes. A `Gatherer`
//! passes on up to 16384 bytes at once to the sink below it. For a sink that `discards` no text need be made.
//!
//! A `Joint` is a source and a sink together. Code that is given a `Joint` reads only through it, so only while the
//! sink holds nothing, the source `is_open`, and the source `allows` it by what both tell (`Streams`). Such code works
//! for every source, so it knows no more of `allows` than its own contract says: `MayRead` (specs/Pacing) allows
//! reading wherever such bytes were read, and nothing was written and no call failed since.
//!
//! A [`Transducer`] neither reads nor writes: it is fed bytes and asked for text, and [`drive`] does the rest. It says
//! by its state what is due of the bytes that follow (`DueOf`, specs/Due). A step of it wants more bytes, has taken
//! some and gives the text that is due for them, or ends (`Steps`). What is due before such a step follows from what is
//! due after it (`LeadsAfter`). The driver alone reads, writes, flushes and counts faults: `Ends` says how it ended and
//! how far it got, whatever the transducer. No piece of a text, such as a line, goes out by more than one `write_all`.
#![tactic(auto)]

mod calls;
mod driver;
mod gather;
mod joint;
mod memory;
mod newline;
mod streams;
mod text;
mod traits;
mod transducer;
mod window;

pub use driver::{FailedStream, drive};
pub use gather::Gatherer;
pub use joint::Joint;
pub use memory::{Discard, MemSink, MemSource, SureSource};
pub use newline::find_newline;
pub use streams::{StdSink, StdSource};
pub use text::Text;
pub use traits::{Failed, Sink, Source, write_all, write_out};
pub use transducer::{Step, Transducer};
