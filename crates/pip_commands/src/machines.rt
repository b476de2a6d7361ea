//! New machines.
ghost use Rattle.std.specs.Prelude.{◌≡◌, ◌≤◌, IfOk, length};
ghost use Rattle.pip_model.specs.Worlds.{boot_world};
ghost use Rattle.pip_switch.specs.Standing.{StandsAs};

use pip_base::Steps;
use pip_frames::RawFrames;
use pip_kern::boot_zeros;
use pip_switch::Machine;
use std::alloc::{AllocError, Global};
use std::sync::ledger::Ledger;

/// A machine of 16 to 4096 frames and 1 to 4 processors, as it boots. The only error is that memory is out.
pub fn new_machine<L: Ledger>(
    alloc: Global,
    frames: u32,
    cpus: u32,
    steps: &mut Steps<L>,
) -> Result<Machine<RawFrames>, AllocError>
    requires least_frames { 16 ≤ frames }
    requires most_frames { frames ≤ 4096 }
    requires least_cpus { 1 ≤ cpus }
    requires most_cpus { cpus ≤ 4 }
    ensures stands { IfOk result (λ m. StandsAs m (boot_world frames cpus)) }
    ensures count { IfOk result (λ m. length m.cpus ≡ cpus) }
{
    let mut mem = RawFrames::new(alloc, frames)?;
    boot_zeros(&mut mem, steps);
    Ok(Machine::new(mem, cpus))
}
