ghost use Rattle.table_reference.specs.View.{own, own_held};
ghost use Rattle.round_robin_rule.specs.Rule.{round_robin};
ghost use Rattle.round_robin_rule.proofs.Laws.{robin_lawful};
ghost use Rattle.tag_rule.specs.Tags as SpecsTags;
ghost use Rattle.tag_rule.proofs.Laws.{tags_lawful};
ghost use Rattle.table_reference.specs.EitherLaws.{either_lawful};
ghost use Rattle.round_robin.specs.Held.{held_sound as robin_sound};
ghost use Rattle.tags.specs.Held.{held_sound as tags_sound};
ghost use Rattle.table_reference.specs.declared.TableReference.TheVariants.{RoundRobin, Tags};

use crate::TableReference;
use reference::Reference;

impl Reference for TableReference {
    ghost meaning = { own };

    ghost held = { own_held };

    ghost lawful = { either_lawful round_robin SpecsTags.tags robin_lawful tags_lawful };

    ghost sound = { elim [ RoundRobin r ↦ robin_sound r | Tags t ↦ tags_sound t ] };

    // The two arms of each call stand written out: a macro for them would hide the match, and is no plainer.
    fn flow_count(&self) -> u8 {
        match self {
            TableReference::RoundRobin(robin) => robin.flow_count(),
            TableReference::Tags(tags) => tags.flow_count(),
        }
    }

    fn weight(&self, flow: u8) -> Option<u32> {
        match self {
            TableReference::RoundRobin(robin) => robin.weight(flow),
            TableReference::Tags(tags) => tags.weight(flow),
        }
    }

    fn allowance(&self, flow: u8) -> Option<u32> {
        match self {
            TableReference::RoundRobin(robin) => robin.allowance(flow),
            TableReference::Tags(tags) => tags.allowance(flow),
        }
    }

    fn total_weight(&self) -> u32 {
        match self {
            TableReference::RoundRobin(robin) => robin.total_weight(),
            TableReference::Tags(tags) => tags.total_weight(),
        }
    }

    fn is_due(&self, flow: u8) -> bool {
        match self {
            TableReference::RoundRobin(robin) => robin.is_due(flow),
            TableReference::Tags(tags) => tags.is_due(flow),
        }
    }

    fn enter(&mut self, flow: u8) {
        match self {
            TableReference::RoundRobin(robin) => robin.enter(flow),
            TableReference::Tags(tags) => tags.enter(flow),
        }
    }

    fn leave(&mut self, flow: u8) {
        match self {
            TableReference::RoundRobin(robin) => robin.leave(flow),
            TableReference::Tags(tags) => tags.leave(flow),
        }
    }

    #[inline(always)]
    fn turn(&mut self) -> Option<u8> {
        match self {
            TableReference::RoundRobin(robin) => robin.turn(),
            TableReference::Tags(tags) => tags.turn(),
        }
    }
}
