//! The laws of machines: docs/MODEL.md, "The laws". They compute nothing: what each
//! says is its contract, of every machine and of whatever events it takes.
ghost use Rattle.pip_switch.specs.Isolation.{MachinesDependOnBelow, MachinesGiveBack, MachinesLeaveOthersAlone};
ghost use Rattle.pip_switch.specs.Isolation.{OthersDoNotMatterToMachines, RunsAreTheModels};
ghost use Rattle.pip_switch.specs.Work.{RunsTakeNoMore};

/// A machine does, event by event, what happens in the model.
pub fn law_runs()
    ensures { RunsAreTheModels }
{}

/// In how many steps it does.
pub fn law_work()
    ensures { RunsTakeNoMore }
{}

/// What an answered access, or a call that doesn't switch, leaves alone, and what it depends on.
pub fn law_local()
    ensures others { MachinesLeaveOthersAlone }
    ensures depends { MachinesDependOnBelow }
    ensures lists { OthersDoNotMatterToMachines }
{}

/// What a partition has again when its child is gone.
pub fn law_give_back()
    ensures { MachinesGiveBack }
{}
