//! An index of a table.
ghost use Rattle.std.specs.Prelude.{◌≡◌, IfErr, IfOk};
ghost use Rattle.ipnet_addr.specs.Addresses.{address_of};
ghost use Rattle.prefix_trie.specs.declared.refused.Refused.TheVariants.{Memory};
ghost use Rattle.route_laws.specs.Networks.{routes_of};
ghost use Rattle.route_laws.specs.Tables.{hop_at};

use hop_index::{HopIndex, Refused};
use ipnet::IpAddr;
use route_table::RouteTable;
use std::alloc::Global;

/// Returns the hop of an address in an index of the table, which is its hop in the table.
///
/// # Errors
/// `Memory` if an allocation for the index fails.
pub fn looked_up(alloc: Global, table: &RouteTable, addr: IpAddr) -> Result<Option<u32>, Refused>
    ensures hop { IfOk result (λ hop. hop ≡ hop_at (routes_of table.now) (address_of addr)) }
    ensures memory { IfErr result (λ e. e ≡ Memory) }
{
    let index = HopIndex::from_table(alloc, table)?;
    Ok(index.hop(addr))
}
