//! A law over made bundles, the contract of a function that does nothing.
ghost use Rattle.kz_model.specs.Text.Made.{MadeSpells};

/// Each number makes a text that spells a bundle.
pub fn made_bundles_spell()
    ensures { MadeSpells }
{}
