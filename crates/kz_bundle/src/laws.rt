//! Laws over the grammar of bundles, each the contract of a function that does nothing.
ghost use Rattle.kz_model.specs.Grammar.Spelling.{SpellingIsReading, OneText};
ghost use Rattle.kz_model.specs.Grammar.Valid.{ReadingIsValid};

/// What a text spells is what is read from it.
pub fn spelling_is_reading()
    ensures { SpellingIsReading }
{}

/// A bundle has one text.
pub fn a_bundle_has_one_text()
    ensures { OneText }
{}

/// What is read keeps to its numbers.
pub fn what_is_read_is_valid()
    ensures { ReadingIsValid }
{}
