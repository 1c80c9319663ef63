//! Networks that govern no address: routes strictly inside contain all.
ghost use Rattle.ipnet_blocks.specs.Blocks.{IsBlock};
ghost use Rattle.ipnet_blocks.specs.Networks.{block_of};
ghost use Rattle.route_laws.specs.Networks.{routes_of};
ghost use Rattle.route_table.specs.InnerGoverning.{GivesSpan, GovernsNone};
ghost use Rattle.route_table.specs.InnerFamilyTables.{IsFamilyTable};

use crate::family::FamilyNet;
use crate::family_routes::FamilyRoutes;
use crate::family_table::FamilyTable;
use crate::governed::span;
use ipnet_blocks::aggregate::Span;

/// The length of the next network, and the numbers of its addresses.
fn next_span<P: FamilyNet>(routes: &mut FamilyRoutes<'_, P>) -> Option<(u8, Span)>
    ensures { GivesSpan routes.old result routes.new }
{
    let (net, _, _) = routes.next_net()?;
    Some((net.prefix_len(), span(&net.ip_net())))
}

impl<P: FamilyNet> FamilyTable<P, 1> {
    /// Whether the network governs no address. The walk of the routes inside ends at the first gap.
    pub(crate) fn governs_none(&self, net: P) -> bool
        requires { IsBlock (block_of P.family (P.parts net)) }
        ensures none { GovernsNone result (routes_of self.now) (block_of P.family (P.parts net)) }
        ensures side { IsFamilyTable P.family self.now }
    {
        let whole = span(&net.ip_net());
        let mut at = whole.first;
        let mut inside = self.list(net);
        while let Some((len, route)) = next_span(&mut inside) {
            if len > net.prefix_len() {
                if at < route.first {
                    return false;
                }
                if route.last == whole.last {
                    return true;
                }
                at = at.max(route.last + 1);
            }
        }
        false
    }
}
