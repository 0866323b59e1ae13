//! Theorems about saved rows. The functions do nothing; their contracts are proved of the definitions alone.

ghost use Rattle.drf_saved_laws.specs.SavedLaws.{HeadIsSaveable, RowKeepsSaveable, RestoredCanBeSaved, RestoredIsListed, SavedIsRestored, LiveRowsAreSaved, RunsCanBeSaved, SaveableRowsStaySo, RunsGoOnFromSaved, SavedRowsGoOn, RunsResume, RowsResume, EpochCanBeSaved, EpochKeepsTheRest};

/// Proves that a head without an error makes rows that can be saved, and that adding a row without an error keeps them so.
pub fn row_law()
    ensures head { HeadIsSaveable }
    ensures row { RowKeepsSaveable }
{}

/// Proves that a list is accepted exactly if it is saved from some rows that can be saved, and that it then restores their current state. What
/// is saved depends only on the current state.
pub fn saved_law()
    ensures saveable { RestoredCanBeSaved }
    ensures listed { RestoredIsListed }
    ensures again { SavedIsRestored }
    ensures live { LiveRowsAreSaved }
{}

/// Proves that every run, from the empty cluster or from rows that can be saved, reaches rows that can be saved. If these are saved and restored,
/// further events have the same results as in one run.
pub fn saved_runs_law()
    ensures runs { RunsCanBeSaved }
    ensures stay { SaveableRowsStaySo }
    ensures go_on { RunsGoOnFromSaved }
    ensures again { SavedRowsGoOn }
{}

/// Proves that a run that resumes from the current state of another has the same replies and reaches the same current state.
pub fn resume_law()
    ensures replies { RunsResume }
    ensures rows { RowsResume }
{}

/// Proves that rows can still be saved after an epoch, which ends offers, counts and the history, and keeps everything else.
pub fn epoch_law()
    ensures saveable { EpochCanBeSaved }
    ensures rest { EpochKeepsTheRest }
{}
