//! The laws of the model. They compute nothing: what each says is its contract.
ghost use Rattle.pip_model.specs.Audit.{FoundAreLayouts, LayoutsAreFound};
ghost use Rattle.pip_model.specs.GiveBack.{GivesBack};
ghost use Rattle.pip_model.specs.Laws.{AncestorsAreInLine, BootIsCached, BootIsSound, CachesTellNothing};
ghost use Rattle.pip_model.specs.Laws.{CommonPagesRelate, ConfigStandsAbove, EventsKeepCaches, EventsKeepFrames};
ghost use Rattle.pip_model.specs.Laws.{EventsKeepSound, EventsTakeAtMost, FramesTellTree, LayoutTellsTree};
ghost use Rattle.pip_model.specs.Laws.{NumbersAreWords, PlacesAreOpen, RunsKeepSound, RunsTakeAtMost, TreesAreSmall};
ghost use Rattle.pip_model.specs.Laws.{TreesShowAlike, TurnsTakeAtMost};
ghost use Rattle.pip_model.specs.Local.{DependsOnBelow, LeavesOthersAlone, OthersDoNotMatter};

/// Events lead to sound worlds only.
pub fn law_sound()
    ensures boot { BootIsSound }
    ensures event { EventsKeepSound }
    ensures run { RunsKeepSound }
    ensures numbers { NumbersAreWords }
{}

/// What translation caches hold.
pub fn law_caches()
    ensures boot { BootIsCached }
    ensures event { EventsKeepCaches }
    ensures told { CachesTellNothing }
{}

/// At most how many steps events take, by the number of frames.
pub fn law_work()
    ensures frames { EventsKeepFrames }
    ensures trees { TreesAreSmall }
    ensures event { EventsTakeAtMost }
    ensures run { RunsTakeAtMost }
    ensures turn { TurnsTakeAtMost }
{}

/// Who may reach which pages.
pub fn law_reach()
    ensures open_places { PlacesAreOpen }
    ensures line { AncestorsAreInLine }
    ensures config { ConfigStandsAbove }
    ensures common { CommonPagesRelate }
{}

/// What an event of one partition leaves alone, and what it depends on.
pub fn law_local()
    ensures others { LeavesOthersAlone }
    ensures depends { DependsOnBelow }
    ensures lists { OthersDoNotMatter }
{}

/// What a partition has again when its child is gone.
pub fn law_give_back()
    ensures { GivesBack }
{}

/// The words of the frames determine the tree, and its text.
pub fn law_layout()
    ensures trees { LayoutTellsTree }
    ensures frames { FramesTellTree }
    ensures texts { TreesShowAlike }
{}

/// What an audit finds in a memory: a tree exactly where the memory lays out a sound one.
pub fn law_audit()
    ensures layouts { LayoutsAreFound }
    ensures found { FoundAreLayouts }
{}
