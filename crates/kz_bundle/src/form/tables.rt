//! The names and the types of step lines, by number.
ghost use Rattle.std.specs.Prelude.{◌≡◌, ◌≤◌, length, IfOk, OnOk};
ghost use Rattle.kz_model.specs.Grammar.Spelling.{named_step_of};
ghost use Rattle.kz_model.specs.Store.Traces.{AreNumbered};
ghost use Rattle.kz_bundle.specs.NamedSteps.{named_step_as};
ghost use Rattle.kz_bundle.specs.Table.{names_after, words_after};

use crate::form::names::Names;
use crate::form::steps::NamedStep;
use kz_model::Act;
use std::alloc::AllocError;

/// The names and the types in step lines.
#[derive(Drop)]
pub struct Tables<'a> {
    pub names: Names<'a>,
    pub words: Names<'a>,
}

impl<'a> Tables<'a> {
    /// What a step line says, by numbers. A name or a type that is new stands behind the others.
    #[inline(always)]
    pub fn act_of(&mut self, said: NamedStep<'a>) -> Result<Act, AllocError>
        requires few_names { length self.old.names ≤ 1000000 }
        requires few_words { length self.old.words ≤ 1000000 }
        ensures meant { IfOk result (λ act. named_step_of self.new.names self.new.words act
            ≡ named_step_as said.entry) }
        ensures within { IfOk result (λ act. AreNumbered (length self.new.names) (length self.new.words) act) }
        ensures names { OnOk result (self.new.names ≡ names_after (named_step_as said.entry) self.old.names) }
        ensures words { OnOk result (self.new.words ≡ words_after (named_step_as said.entry) self.old.words) }
    {
        Ok(match said {
            NamedStep::Alloc { name, of } => Act::Alloc {
                name: self.names.number(name)?,
                of: self.words.number(of)?,
            },
            NamedStep::AllocZero { name, of } => Act::AllocZero {
                name: self.names.number(name)?,
                of: self.words.number(of)?,
            },
            NamedStep::Free { name } => Act::Free {
                name: self.names.number(name)?,
                of: None,
            },
            NamedStep::FreeAs { name, of } => Act::Free {
                name: self.names.number(name)?,
                of: Some(self.words.number(of)?),
            },
            NamedStep::Give { name, to } => Act::Give {
                name: self.names.number(name)?,
                to,
            },
            NamedStep::Take { name } => Act::Take {
                name: self.names.number(name)?,
            },
            NamedStep::Read { name, off, len } => Act::Read {
                name: self.names.number(name)?,
                off,
                len,
            },
            NamedStep::Write { name, off, bytes } => Act::Write {
                name: self.names.number(name)?,
                off,
                bytes,
            },
            NamedStep::Flush { of } => Act::Flush {
                of: self.words.number(of)?,
            },
            NamedStep::Trim { of } => Act::Trim {
                of: self.words.number(of)?,
            },
        })
    }
}
