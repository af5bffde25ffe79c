ghost use Rattle.std.specs.Prelude.{◌≡◌, ◌<◌, ◌^◌, [], length, slice_get, Some, IfOk};
ghost use Rattle.cx_type_defs.specs.Tables.{Tables};
ghost use Rattle.cx_blocks.specs.Fits.{AllKnown};

use crate::block::Block;
use cx_base::Memory;
use cx_layout::Layouts;
use std::alloc::Global;

/// Objects as blocks of slots, each at its number ([intro.object]). An object is refused as `Memory` too where it would take
/// the descriptor with the last number of 32 bits.
#[derive(Drop)]
pub struct Blocks {
    pub(crate) alloc: Global,
    pub(crate) layouts: Layouts,
    pub(crate) blocks: Vec<Block>,
    /// The cells of the blocks that count.
    pub(crate) live: u32,
    ghost few: { length blocks.items < 2 ^ 32 },
    ghost known: { AllKnown layouts blocks.items },
}

impl Blocks {
    ghost use Rattle.cx_blocks.specs.Stored.{objects, fits};

    /// No objects.
    pub fn new(alloc: Global) -> Result<Blocks, Memory>
        ensures none { IfOk result (λ s. objects s ≡ []) }
        ensures fit { IfOk result (λ s. (t : Tables) → fits s t) }
    {
        let layouts = Layouts::new(alloc)?;
        Ok(Blocks {
            alloc,
            layouts,
            blocks: Vec::new(alloc),
            live: 0,
        })
    }

    /// The block with a number.
    pub(crate) fn block(&self, number: u32) -> &Block
        requires { number < length self.now.blocks.items }
        ensures { slice_get self.now.blocks.items number ≡ Some result.now }
    {
        &self.blocks[number as usize]
    }
}
