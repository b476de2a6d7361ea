//! How many events answered what.
ghost use Rattle.std.specs.Prelude.{◌≡◌, ◌≢◌, ℕ, ◌+◌, ◌<◌, ◌≤◌, ◌^◌, [], slice_index};
ghost use Rattle.pip_base.specs.Status.{status_number};

use pip_base::{Outcome, Status};

/// Counts of outcomes. Each stands still at 2^32 - 1.
#[derive(Clone, Copy, Debug)]
pub struct Counts {
    /// All events.
    pub events: u32,
    /// Those that answered a word or a byte.
    pub words: u32,
    pub done: u32,
    pub switched: u32,
    pub parked: u32,
    pub idle: u32,
    /// The replies by the numbers of their statuses.
    pub replies: [u32; 19],
}

// One more, where the type has room; at its end the count stands still.
fn one_more(count: u32) -> u32
    ensures more { count + 1 < 2 ^ 32 → result ≡ count + 1 }
    ensures end { 2 ^ 32 ≤ count + 1 → result ≡ count }
{
    count.saturating_add(1)
}

// Counts one reply more of a status.
fn add_reply(replies: &mut [u32; 19], status: Status)
    ensures place { slice_index replies.old (status_number status) + 1 < 2 ^ 32 →
        slice_index replies.new (status_number status) ≡ slice_index replies.old (status_number status) + 1 }
    ensures others { (s : ℕ) → s ≢ status_number status → slice_index replies.new s ≡ slice_index replies.old s }
{
    let place = status.number() as usize;
    replies[place] = one_more(replies[place]);
}

impl Counts {
    ghost use Rattle.pip_soak.specs.Counts.{CountsOf, CountsOne};

    /// The counts of no outcomes.
    pub(crate) fn new() -> Counts
        ensures { CountsOf result [] }
    {
        Counts {
            events: 0,
            words: 0,
            done: 0,
            switched: 0,
            parked: 0,
            idle: 0,
            replies: [0; 19],
        }
    }

    /// Counts one outcome more.
    pub(crate) fn add(&mut self, outcome: Outcome)
        ensures { CountsOne self.old self.new outcome }
    {
        self.events = one_more(self.events);
        match outcome {
            Outcome::Word(_) => self.words = one_more(self.words),
            Outcome::Done => self.done = one_more(self.done),
            Outcome::Reply { status, .. } => {
                add_reply(&mut self.replies, status);
            }
            Outcome::Switched { .. } => self.switched = one_more(self.switched),
            Outcome::Parked { .. } => self.parked = one_more(self.parked),
            Outcome::Idle => self.idle = one_more(self.idle),
        }
    }
}
