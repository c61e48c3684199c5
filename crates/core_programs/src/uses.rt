//! Which nodes mention a name.
ghost use Rattle.std.specs.Prelude.{◌<◌, ◌^◌, length, IfOk};
ghost use Rattle.core_programs.specs.Uses.{LeadsToUses};

use crate::mentions::mentions_of;
use crate::nodes::Node;
use chan_base::Memory;
use name_uses::{Uses, note_all};
use std::alloc::Global;
use std::collections::BTreeMap;

/// The nodes that mention each name.
pub(crate) fn index_uses(alloc: Global, nodes: &[Node]) -> Result<Uses, Memory>
    requires { length nodes.now < 2 ^ 32 }
    ensures { IfOk result (LeadsToUses nodes.now) }
{
    let mut uses = BTreeMap::new(alloc);
    let mut number: u32 = 0;
    'nodes: for node in nodes {
        let names = mentions_of(alloc, node)?;
        note_all(alloc, &mut uses, names, number)?;
        number += 1;
    }
    Ok(uses)
}
