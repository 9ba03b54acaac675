//! What replies come to.
ghost use Rattle.std.specs.Prelude.{◌≡◌, ◌+◌, ◌^◌, ◌<◌, [], ◌∷◌, ◌++◌, List, if◌then◌else◌};
ghost use Rattle.kz_model.specs.declared.step.Reply.{Reply as TheReply};
ghost use Rattle.kz_model.specs.Text.Summary.{is_block as shows_block, is_refusal as shows_refusal, pages_trimmed};

use kz_model::Reply;

/// How many replies there were, how many of them were blocks and refusals of the supply, and the pages that were
/// trimmed.
#[derive(Drop)]
pub(crate) struct Totals {
    pub(crate) steps: u64,
    pub(crate) blocks: u64,
    pub(crate) refused: u64,
    pub(crate) trimmed: u64,
}

fn is_block(reply: &Reply) -> bool
    ensures { result ≡ shows_block reply.now }
{
    match reply {
        Reply::Block { .. } => true,
        _ => false,
    }
}

fn is_refusal(reply: &Reply) -> bool
    ensures { result ≡ shows_refusal reply.now }
{
    match reply {
        Reply::NoSpace { .. } | Reply::NoFrames { .. } => true,
        _ => false,
    }
}

fn trimmed_pages(reply: &Reply) -> u32
    ensures { result ≡ pages_trimmed (reply.now ∷ []) }
{
    match reply {
        Reply::Trimmed { pages } => *pages,
        _ => 0,
    }
}

fn one_if(test: bool) -> u64
    ensures { result ≡ (if test then 1 else 0) }
{
    if test { 1 } else { 0 }
}

impl Totals {
    ghost use Rattle.kz_make.specs.Totals.{IsWithin, AreTotals};

    pub(crate) fn none() -> Totals
        ensures within { IsWithin result }
        ensures none { AreTotals result [] }
    {
        Totals {
            steps: 0,
            blocks: 0,
            refused: 0,
            trimmed: 0,
        }
    }

    pub(crate) fn add(&mut self, reply: &Reply)
        requires few { self.old.steps < 2 ^ 32 }
        requires within { IsWithin self.old }
        ensures steps { self.new.steps ≡ self.old.steps + 1 }
        ensures within { IsWithin self.new }
        ensures more { (replies : List TheReply) → AreTotals self.old replies →
            AreTotals self.new (replies ++ reply.now ∷ []) }
    {
        self.steps += 1;
        self.blocks += one_if(is_block(reply));
        self.refused += one_if(is_refusal(reply));
        self.trimmed += u64::from(trimmed_pages(reply));
    }
}
