//! Laws over types, names, rounds and the order, each the contract of a function that does nothing.
ghost use Rattle.kz_grammar.specs.BundleNames.{SpelledNameRowsAreSound};
ghost use Rattle.kz_grammar.specs.LineNumbers.{StepLinesStand, NoStepLineIsMissing, SectionsStand, TypeLinesStand};
ghost use Rattle.kz_grammar.specs.NameLaws.{SpelledIsSound, TypeFaultsAreTrue, NameFaultsAreTrue, RoundFaultsAreTrue, FirstFaultsAreTrue, SoundHasNoFault};
ghost use Rattle.kz_model.specs.Grammar.Form.{Draft};

/// In what is spelled, each name has its `a` and `z` lines on one CPU and with one type, every name of a step has one,
/// every type is declared, and an order names each CPU as often as it has steps.
pub fn what_is_spelled_is_sound()
    ensures text { SpelledIsSound }
    ensures bundle { SpelledNameRowsAreSound }
{}

/// What is said of a draft's step lines and declarations is said of the text's lines: each stands there at its number,
/// in the section of its CPU.
pub fn lines_stand_in_the_text()
    ensures steps { StepLinesStand }
    ensures all { NoStepLineIsMissing }
    ensures sections { SectionsStand }
    ensures types { TypeLinesStand }
{}

/// A fault of the stages after the form comes only where its own sentence is broken, at the first line that breaks one.
pub fn later_faults_are_true()
    ensures types { (d : Draft) → TypeFaultsAreTrue d }
    ensures names { (d : Draft) → NameFaultsAreTrue d }
    ensures rounds { (d : Draft) → RoundFaultsAreTrue d }
    ensures exact { SoundHasNoFault }
    ensures first { FirstFaultsAreTrue }
{}
