//! What a block tells, and what bars an access to it ([basic.life], [expr.const], [implimits]).

ghost use Rattle.std.specs.Prelude.{◌≡◌, ◌≤◌, not};
ghost use Rattle.cx_base.specs.declared.rule.Rule.TheVariants as rule;
ghost use Rattle.cx_state.specs.Conditions.{is_here, is_opaque};
ghost use Rattle.cx_state.specs.Pointers.{is_literal_kind};
ghost use Rattle.cx_state.specs.Steps as steps;
ghost use Rattle.cx_blocks.specs.Bars.{barred};
ghost use Rattle.cx_blocks.specs.Fits.{live_in, live_of};
ghost use Rattle.cx_blocks.specs.Seen.{phase_of};

use crate::block::Block;
use cx_base::Rule;
use cx_state::{Birth, Kind, Phase};

impl Block {
    /// The rule that bars reading from it, wherever.
    pub(crate) fn unreadable(&self, past: bool) -> Option<Rule>
        ensures { result ≡ barred self.now.released past (is_opaque self.now.birth) rule.NotUsable }
    {
        if self.released {
            return Some(Rule::Dangling);
        }
        if past {
            return Some(Rule::PastEnd);
        }
        match self.birth {
            Birth::Opaque => Some(Rule::NotUsable),
            _ => None,
        }
    }

    /// The rule that bars writing to it, wherever.
    pub(crate) fn unwritable(&self, past: bool) -> Option<Rule>
        ensures { result ≡ barred self.now.released past (not (is_here self.now.birth)) rule.OutsideWrite }
    {
        if self.released {
            return Some(Rule::Dangling);
        }
        if past {
            return Some(Rule::PastEnd);
        }
        match self.birth {
            Birth::Here => None,
            _ => Some(Rule::OutsideWrite),
        }
    }

    /// Its cells, where they count.
    pub(crate) fn live_cells(&self) -> u32
        ensures { result ≡ live_in self.now }
    {
        if self.counted && !self.released {
            self.cells
        } else {
            0
        }
    }

    /// The phase of its classes where its slots aren't kept.
    pub(crate) fn phase(&self) -> Phase
        ensures { result ≡ phase_of self.now }
    {
        if self.released {
            Phase::Ended
        } else {
            Phase::Unborn
        }
    }

    /// Whether it is a string literal.
    pub(crate) fn is_literal(&self) -> bool
        ensures { result ≡ is_literal_kind self.now.kind }
    {
        matches!(self.kind, Kind::Literal)
    }
}

/// The cells of the blocks that count, where they are no more than `most`.
pub(crate) fn total_live(blocks: &[Block], most: u32) -> u32
    ensures { live_of blocks.now ≤ most → result ≡ live_of blocks.now }
{
    let mut total: u64 = 0;
    for block in blocks {
        total = (total + u64::from(block.live_cells())).min(u64::from(most));
    }
    total as u32
}

/// The phase of the classes of a member that becomes the active one.
pub(crate) fn begun(alive: bool) -> Phase
    ensures { result ≡ steps.begun alive }
{
    if alive { Phase::Alive } else { Phase::Unborn }
}
