//! Laws over the definitions, each the contract of a function that does nothing.
ghost use Rattle.kz_laws.specs.Laws.{AsksNothing, IsLocal, StepsAlone, LeavesOthers, KeepsOthers, Commutes, OpensWhole, WholeIsInOrder, StepsKeepWhole, GrantsApart, NamesDecideNothing, OwnDecides, AgreedAreAlike, GrantedAgree, LiveOnce, OneBlockAtAnAddress, LiveBlocksAreApart, OneEntryAtAnAddress, OneChunkAtAnAddress, OthersGoOn, LastVisitDecides, AnsweredAlikeByLines, AnsweredAlikeWhenSettled, OrderIsAlike, OrderRunIsSame, RunsHaveLogs};
ghost use Rattle.kz_laws.specs.PlayLaws.{OrderIsInTurn, OrderIsNext, PlaysAreSound, TurnsHaveLines, LinesAreFew, StockAnswers, OrderRunsAreRuns, OrderedRunsArePlayed, RunsEndSound};
ghost use Rattle.kz_laws.specs.Isolation.{RunsAreIsolated};
ghost use Rattle.kz_laws.specs.Reports.{ReportNamesItsRun};
ghost use Rattle.kz_laws.specs.Worlds.{AgreeingRunsAreAlike, GrantedRunsAgree, SameTextsAreAlike, ReadNamesAreApart};

/// A step that needs no visit asks nothing, and its effect depends on what its CPU has alone.
pub fn steps_without_a_visit_are_local()
    ensures asks { AsksNothing }
    ensures effect { IsLocal }
{}

/// A step that needs no visit may be delayed past steps of other CPUs.
pub fn delays_change_nothing()
    ensures alone { StepsAlone }
    ensures others { LeavesOthers }
    ensures keeps { KeepsOthers }
    ensures commutes { Commutes }
    ensures go_on { OthersGoOn }
    ensures last { LastVisitDecides }
{}

/// Each element is in one place.
pub fn each_element_is_in_one_place()
    ensures opening { OpensWhole }
    ensures words { WholeIsInOrder }
    ensures kept { StepsKeepWhole }
    ensures live { LiveOnce }
    ensures addresses { OneBlockAtAnAddress }
    ensures apart { LiveBlocksAreApart }
{}

/// No page is granted twice, and no address is of two chunks.
pub fn addresses_are_sequestered()
    ensures pages { GrantsApart }
    ensures addresses { OneEntryAtAnAddress }
    ensures chunks { OneChunkAtAnAddress }
    ensures runs { RunsHaveLogs }
{}

/// Neither the numbers of names nor the pages of answers decide anything.
pub fn agreement_decides()
    ensures names { NamesDecideNothing }
    ensures own { OwnDecides }
    ensures alike { AgreedAreAlike }
    ensures granted { GrantedAgree }
{}

/// Lines that are delayed until their CPU's next visit to the zone are answered as they would be at once.
pub fn delayed_runs_answer_alike()
    ensures lines { AnsweredAlikeByLines }
    ensures settled { AnsweredAlikeWhenSettled }
    ensures order { OrderIsAlike }
    ensures run { OrderRunIsSame }
{}

/// An order is played line by line.
pub fn orders_are_played()
    ensures turns { OrderIsInTurn }
    ensures next { OrderIsNext }
    ensures sound { PlaysAreSound }
    ensures lines { TurnsHaveLines }
    ensures few { LinesAreFew }
    ensures stock { StockAnswers }
    ensures run { OrderedRunsArePlayed }
    ensures end { RunsEndSound }
{}

/// An order makes a run of its bundle.
pub fn orders_make_runs()
    ensures { OrderRunsAreRuns }
{}

/// A run keeps its zones apart: each answers as it does alone, and no address is of two blocks.
pub fn runs_keep_zones_apart()
    ensures { RunsAreIsolated }
{}

/// A report names its run.
pub fn a_report_names_its_run()
    ensures { ReportNamesItsRun }
{}

/// Two runs that agree at a zone answer equally there and show equal bytes, and where the supply refuses neither they
/// agree.
pub fn runs_that_agree_are_alike()
    ensures alike { AgreeingRunsAreAlike }
    ensures granted { GrantedRunsAgree }
    ensures texts { SameTextsAreAlike }
    ensures own_texts { ReadNamesAreApart }
{}
