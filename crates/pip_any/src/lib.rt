//! What a search with a menu says of every program of its hostile partitions: docs/GUARANTEES.md, "Children that do
//! anything". The functions here compute nothing: each is a law, which its contract says.
#![tactic(auto)]

ghost use Rattle.pip_any.specs.AnyProgram.{AnyProgramFromStart, AnyProgramIsNamed, AwayTextsNamePrograms};
ghost use Rattle.pip_any.specs.AnyProgram.{PassedNamesAnyProgram};
ghost use Rattle.pip_any.specs.Begins.{ImagesLookAlike, StepsDependOnOutside};
ghost use Rattle.pip_any.specs.Hostile.{CallsAreOnMenu, ConfinedKeepsToMenu, FetchFaultsAreOnMenu};
ghost use Rattle.pip_any.specs.Hostile.{LoadFaultsAreOnMenu, MasksReadNone, StoreFaultsAreOnMenu, StoresAreOnMenu};
ghost use Rattle.pip_any.specs.Hostile.{TrapsAreOnMenu, TurnsHaveChoices, UntakenAreOnMenu, YieldsAreOnMenu};
ghost use Rattle.pip_any.specs.Hostile.{YieldsReadThree};
ghost use Rattle.pip_any.specs.Passing.{StatesPass};
ghost use Rattle.pip_any.specs.Programs.{ConfinedProgramsAreNamed, ProgramsAreNamed};

/// Each turn of a world has a choice at a moment that looks like this world: it shows the same, or the turn stays
/// inside a partition of the menu.
pub fn law_hostile()
    ensures turns { TurnsHaveChoices }
    ensures confined { ConfinedKeepsToMenu }
    ensures passed { StatesPass }
{}

/// Which events are on a menu.
pub fn law_menus()
    ensures traps { TrapsAreOnMenu }
    ensures untaken { UntakenAreOnMenu }
    ensures loads { LoadFaultsAreOnMenu }
    ensures stores { StoreFaultsAreOnMenu }
    ensures fetches { FetchFaultsAreOnMenu }
    ensures calls { CallsAreOnMenu }
    ensures yields { YieldsReadThree }
    ensures masks { MasksReadNone }
    ensures saves { YieldsAreOnMenu }
    ensures words { StoresAreOnMenu }
{}

/// A search with a menu that closed names each line of a run whose hostile partitions have other programs, but for what
/// stays inside them; and where such runs begin.
pub fn law_programs()
    ensures names { ProgramsAreNamed }
    ensures confined { ConfinedProgramsAreNamed }
    ensures images { ImagesLookAlike }
    ensures steps { StepsDependOnOutside }
{}

/// A search of an image with a menu that closed names each line of each run of each image whose hostile partitions have
/// other programs, if these are confined and their exits are on the menu. That it closed, that all outside looks away,
/// and that these partitions are confined, a text says that ends with `away yes`.
pub fn law_any_program()
    ensures named { AnyProgramIsNamed }
    ensures from_start { AnyProgramFromStart }
    ensures text { AwayTextsNamePrograms }
    ensures passed { PassedNamesAnyProgram }
{}
