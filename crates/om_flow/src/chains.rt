// Edges the other way.
ghost use Rattle.std.specs.Prelude.{◌<◌, ◌+◌, [], ◌∷◌, flat_map, length, OnOk, IfOk};
ghost use Rattle.om_flow.specs.Edges.{AllBelow, EdgesInside};
ghost use Rattle.om_flow.specs.Seen.{pair_of, edges_of};
ghost use Rattle.om_flow.specs.Chain.{ends_of, AreChains, Added};

use crate::parts::FlowBlock;
use om_io::NoMemory;
use std::alloc::Global;

// For each number a link to the last edge that goes there, and for each edge a link to the one before. A link is 0, or an
// edge and one more.
#[derive(Drop)]
pub(crate) struct Chains {
    pub(crate) heads: Vec<u32>,
    pub(crate) more: Vec<u32>,
}

impl Chains {
    // One edge more.
    fn add(&mut self, to: u32) -> Result<(), NoMemory>
        requires { to < length self.old.heads.items }
        ensures { OnOk result (Added (to ∷ []) (length self.old.heads.items)
            self.old.heads.items self.old.more.items self.new.heads.items self.new.more.items) }
    {
        let edge = self.more.len();
        if edge > 4_000_000_000 {
            return Err(NoMemory);
        }
        let link = self.heads[to as usize];
        self.more.push(link)?;
        self.heads[to as usize] = edge as u32 + 1;
        Ok(())
    }

    // The edges of the blocks.
    fn add_blocks(&mut self, blocks: &[FlowBlock]) -> Result<(), NoMemory>
        requires { AllBelow (length self.old.heads.items) (flat_map pair_of blocks.now) }
        ensures { OnOk result (Added (flat_map pair_of blocks.now) (length self.old.heads.items)
            self.old.heads.items self.old.more.items self.new.heads.items self.new.more.items) }
    {
        for b in blocks {
            self.add(b.first)?;
            self.add(b.second)?;
        }
        Ok(())
    }

    // The hub's.
    fn add_lands(&mut self, lands: &[u32]) -> Result<(), NoMemory>
        requires { AllBelow (length self.old.heads.items) lands.now }
        ensures { OnOk result (Added lands.now (length self.old.heads.items)
            self.old.heads.items self.old.more.items self.new.heads.items self.new.more.items) }
    {
        for land in lands {
            self.add(*land)?;
        }
        Ok(())
    }
}

// The edges of blocks and of the hub, the other way.
pub(crate) fn reversed(
    alloc: Global,
    blocks: &[FlowBlock],
    lands: &[u32],
) -> Result<Chains, NoMemory>
    requires { EdgesInside (edges_of blocks.now lands.now) }
    ensures { IfOk result (λ c. AreChains (ends_of blocks.now lands.now) (length blocks.now + 1)
        c.heads.items c.more.items) }
{
    let mut chains = Chains {
        heads: vec![in alloc; 0; blocks.len() + 1]?,
        more: Vec::new(alloc),
    };
    chains.add_blocks(blocks)?;
    chains.add_lands(lands)?;
    Ok(chains)
}
