ghost use Rattle.pol_cli.specs.Laws.{ReportsAreWhole, BegunReportsAreWhole, ClassLinesAreTold};
ghost use Rattle.pol_cli.specs.Laws.{ItemsAreTrue, SolvableAreSolved, LogsRefute, CombinationsRefute, SizesAreTold, UndecidedIsUnchosen};
ghost use Rattle.pol_cli.specs.Laws.{ClassItemsArePrintable, InstanceItemsArePrintable};
ghost use Rattle.pol_cli.specs.Laws.{DueIsDecided, FilesAreReported, OthersAreRefused, FrontsOfUsage, FrontsOfReports};
ghost use Rattle.pol_cli.specs.Laws.{ReportsAreChecked, OtherReportsAreRefused, RejectedIsTold, FrontsOfChecks, OwnReportsPass};
ghost use Rattle.pol_cli.specs.Laws.{FilesAreSummarized, SummaryIsOne, SummariesAddUp, FrontsOfSummaries};
ghost use Rattle.pol_cli.specs.Laws.{InputsAreRead, FaultsReadFew, ReadFaultsReadFewer, StatusTells, ZeroIsDone, UnflushedIsCutOff};

/// What a reader of a report may rely on, whole or begun.
pub fn report_laws()
    ensures whole { ReportsAreWhole }
    ensures begun { BegunReportsAreWhole }
    ensures classes { ClassLinesAreTold }
    ensures true_items { ItemsAreTrue }
    ensures solved { SolvableAreSolved }
    ensures refuted_by_log { LogsRefute }
    ensures refuted_by_sum { CombinationsRefute }
    ensures refuted_with_sizes { SizesAreTold }
    ensures undecided { UndecidedIsUnchosen }
    ensures printable_classes { ClassItemsArePrintable }
    ensures printable_instances { InstanceItemsArePrintable }
{}

/// What a reader of what a run read and wrote, and of its status, may rely on.
pub fn run_laws()
    ensures decided { DueIsDecided }
    ensures reported { FilesAreReported }
    ensures refused { OthersAreRefused }
    ensures usage { FrontsOfUsage }
    ensures fronts { FrontsOfReports }
    ensures read { InputsAreRead }
    ensures cut_off { FaultsReadFew }
    ensures read_fault { ReadFaultsReadFewer }
    ensures statuses { StatusTells }
    ensures zero { ZeroIsDone }
    ensures unflushed { UnflushedIsCutOff }
{}

/// What a reader of the verdicts on a report may rely on.
pub fn check_laws()
    ensures checked { ReportsAreChecked }
    ensures refused { OtherReportsAreRefused }
    ensures rejected { RejectedIsTold }
    ensures fronts { FrontsOfChecks }
    ensures own { OwnReportsPass }
{}

/// What a reader of the summary of a generated file may rely on.
pub fn summary_laws()
    ensures summarized { FilesAreSummarized }
    ensures one { SummaryIsOne }
    ensures adds_up { SummariesAddUp }
    ensures fronts { FrontsOfSummaries }
{}
