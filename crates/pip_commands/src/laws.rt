//! Laws of the commands. They compute nothing: what each says is its contract.
ghost use Rattle.pip_command_contracts.specs.Answered.{AreInputsAnswered};
ghost use Rattle.pip_commands.specs.AuditLaw.{CoreIsAudited};
ghost use Rattle.pip_commands.specs.Dues.{due_of};

/// What `core` writes of a sound tree's frames, `audit` answers with the text of that tree and `yes`.
pub fn law_core_audited()
    ensures { CoreIsAudited }
{}

/// Where no read and no write fails, an input within the limit is answered, or there is no memory.
pub fn law_inputs_answered()
    ensures { AreInputsAnswered due_of }
{}
