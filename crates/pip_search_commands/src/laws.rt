//! Laws of the searches. They compute nothing: what each says is its contract.
ghost use Rattle.pip_search_commands.specs.AgainstLaw.{ClosedNamesMenus, EmptyMenusSayEvery, InputsSayOnce};
ghost use Rattle.pip_search_commands.specs.AgainstLaw.{NoIsAvoided, NoIsLost, YesComes, YesComesAgain};
ghost use Rattle.pip_search_commands.specs.CoverLaw.{MatchedRunsAreNamed};
ghost use Rattle.pip_search_commands.specs.ApartHolds.{YesGuestsHold};
ghost use Rattle.pip_search_commands.specs.ApartLaw.{ApartSaysOnce, YesNamesAll, YesNamesRuns};
ghost use Rattle.pip_search_commands.specs.EveryLaw.{LinesAreOfRuns, SearchesSayOnce};
ghost use Rattle.pip_search_commands.specs.RunLaw.{ChoicesKeepTime, ClosedNamesRuns, CoveredNamesRuns, RunsAreChoices};
ghost use Rattle.pip_search_commands.specs.RunLaw.{TracesGoOn};
ghost use Rattle.pip_search_commands.specs.TextLaw.{ClosedTextsNameMenus, ClosedTextsNameRuns, YesTextsComeAgain};

/// What `every` writes of an image is determined by the image and the words of the command line, and its lines are
/// those that the turns have in runs.
pub fn law_every()
    ensures once { SearchesSayOnce }
    ensures lines { LinesAreOfRuns }
{}

/// What a run does from where a search begins is among the choices of `every`, one for each turn and one for each
/// line that is raised. So where `every` closes it names each line from there on, whatever the schedule, and where it
/// doesn't, each line that it covers; traces of `run` have these lines. It closes where its last line ends so. And what
/// choices show is shown by turns and raises, no line before its time, where each turn is counted alone.
pub fn law_every_runs()
    ensures choices { RunsAreChoices }
    ensures time { ChoicesKeepTime }
    ensures closed { ClosedNamesRuns }
    ensures covered { CoveredNamesRuns }
    ensures traces { TracesGoOn }
    ensures text { ClosedTextsNameRuns }
{}

/// What `against` answers is determined by its input and the words of the command line, but for numbers and ways that
/// are said of labels that may come, of which no two contradict each other; with a menu without deeds it is what
/// `every` says of the image. Where it closes, it names each line that can come, whatever is done of the menu. What it
/// says of a label that can come again, or can't after a way, is so of all states to which choices lead; and so is what
/// it says of a label that comes, where choices are fair, or of a way and a fair loop that avoid it. Its text alone
/// says so, too: by its last line, where the menu asks of no label; by the lines at its end that say `yes`, where it
/// asks only whether labels can come again.
pub fn law_against()
    ensures once { InputsSayOnce }
    ensures empty { EmptyMenusSayEvery }
    ensures closed { ClosedNamesMenus }
    ensures matched { MatchedRunsAreNamed }
    ensures yes { YesComesAgain }
    ensures no { NoIsLost }
    ensures comes { YesComes }
    ensures avoided { NoIsAvoided }
    ensures text { ClosedTextsNameMenus }
    ensures said { YesTextsComeAgain }
{}

/// What `apart` writes of an image is determined by the image and the words of the command line. Where its last line is
/// `apart yes`, it names all that can come after its steps, in whatever order the processors take turns and whatever
/// lines are raised, and so all lines of each longer run; and each guest does exactly what it does alone.
pub fn law_apart()
    ensures once { ApartSaysOnce }
    ensures all { YesNamesAll }
    ensures runs { YesNamesRuns }
    ensures hold { YesGuestsHold }
{}
