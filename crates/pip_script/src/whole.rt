//! A whole source, as one vector.
ghost use Rattle.std.specs.Prelude.{◌≡◌, ◌≢◌, ◌≤◌, [], Err, MatchResult};
ghost use Rattle.pip_io.specs.Moments.{joined};
ghost use Rattle.pip_io.specs.Pacing.{MayRead};
ghost use Rattle.pip_script.specs.Whole.{IsWithinLimit, StopsReading, TakesWhole};

use pip_base::MAX_INPUT;
use pip_io::{Joint, Sink, Source};
use std::alloc::Global;

/// Why a source wasn't read whole.
#[derive(Clone, Copy, Debug, PartialEq, Eq)]
pub enum ReadError {
    /// A read failed.
    Failed,
    /// No memory is left.
    Memory,
    /// `MAX_INPUT` bytes were taken, and one more came.
    Limit,
}

/// All that a source has, which is `MAX_INPUT` bytes at most.
pub fn read_whole<S: Source, K: Sink>(
    alloc: Global,
    joint: &mut Joint<'_, S, K>,
) -> Result<Vec<u8>, ReadError>
    requires is_open { S.is_open joint.old.source.now }
    requires flushed { (K.history joint.old.sink.now).written.buffered ≡ [] }
    requires paced { MayRead S.allows IsWithinLimit (joined S.history K.history joint.old) }
    ensures same_source { joint.new.source.ghost_name ≡ joint.old.source.ghost_name }
    ensures sink { joint.new.sink ≡ joint.old.sink }
    ensures read { MatchResult result
        (λ bytes. TakesWhole bytes.items (S.history joint.old.source.now).left (S.history joint.new.source.now).left)
        (StopsReading (S.history joint.old.source.now).left (S.history joint.new.source.now).left
        (S.history joint.old.source.now).faults (S.history joint.new.source.now).faults) }
    ensures later { (S.history joint.old.source.now).faults ≤ (S.history joint.new.source.now).faults }
    ensures no_faults { result ≢ Err ReadError.Failed → (S.history joint.new.source.now).faults
        ≡ (S.history joint.old.source.now).faults }
{
    let mut bytes = Vec::new(alloc);
    let mut chunk = [0; 4096];
    loop {
        let room = MAX_INPUT as usize - bytes.len();
        // At the limit one byte more is asked for.
        let most = room.max(1).min(chunk.len());
        let Ok(count) = joint.read(&mut chunk[..most]) else {
            return Err(ReadError::Failed);
        };
        if count == 0 {
            return Ok(bytes);
        }
        if room == 0 {
            return Err(ReadError::Limit);
        }
        if bytes.extend_from_slice(&chunk[..count]).is_err() {
            return Err(ReadError::Memory);
        }
    }
}
