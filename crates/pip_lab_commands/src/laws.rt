//! Laws of the commands. They compute nothing: what each says is its contract.
ghost use Rattle.pip_command_contracts.specs.Answered.{AreInputsAnswered};
ghost use Rattle.pip_lab_commands.specs.CertifiedRuns.{CertificatesNameRuns};
ghost use Rattle.pip_lab_commands.specs.Dues.{lab_due_of};
ghost use Rattle.pip_lab_commands.specs.SlotsLaw.{ChildrenAreSeparate};

/// Where no read and no write fails, an input within the limit is answered, or there is no memory.
pub fn law_inputs_answered()
    ensures { AreInputsAnswered lab_due_of }
{}

/// What `slots` writes in the time slots of a child is a matter of that child alone.
pub fn law_slots_apart()
    ensures { ChildrenAreSeparate }
{}

/// Where a text has the lines of the texts of parts of an image, in any order, and these could be merged to a whole,
/// each line of any run is one of the labels that were merged.
pub fn law_certified_runs()
    ensures { CertificatesNameRuns }
{}
