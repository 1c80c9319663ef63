//! The blocks of one hop, computed from the networks that have it.
ghost use Rattle.std.specs.Prelude.{◌≡◌, ◌==◌, ◌++◌, map, filter, All, IfOk, IfErr, OnOk, Some};
ghost use Rattle.ipnet.specs.IpNets.{block, family, parts};
ghost use Rattle.ipnet_blocks.specs.Maximal.{IsMaximal, IsShortest};
ghost use Rattle.ipnet_blocks.specs.Networks.{IsTruncated};
ghost use Rattle.route_laws.specs.Flats.{blocks_of, flat_of};
ghost use Rattle.route_table.specs.InnerOwning.{GrowsBy, IsOwned, Owns};
ghost use Rattle.route_laws.specs.Networks.{routes_of};
ghost use Rattle.route_laws.specs.Tables.{IsTable, hop_at, route_of};
ghost use Rattle.prefix_trie.specs.declared.refused.Refused.TheVariants.{Memory};

use crate::governed::Governed;
use crate::routes::Routes;
use crate::table::{RouteTable, cleared};
use ipnet::IpNet;
use prefix_trie::Refused;
use route_choices::Hop;
use std::alloc::AllocError;

/// Appends the blocks to the list.
fn push_blocks(networks: &mut Vec<IpNet>, blocks: Governed<'_>) -> Result<(), AllocError>
    ensures { OnOk result (map block networks.new.items ≡ map block networks.old.items ++ blocks.entry) }
{
    for block in blocks {
        networks.push(block)?;
    }
    Ok(())
}

impl RouteTable {
    /// Returns the maximal blocks of the addresses with this hop, ascending, as networks without host bits. No list of blocks with these
    /// addresses is shorter. They are the blocks of `flat` with this number.
    ///
    /// # Errors
    /// `Memory` if an allocation fails, for the list or for the computation.
    ///
    /// # Examples
    /// If `half`, 10.0.0.0/9, is the only block with the hop 2:
    ///
    /// ```rust
    /// let own = table.own(2).expect(rt, "memory");
    /// assert_eq!(rt; own.as_slice(), [half].as_slice());
    /// ```
    pub fn own(&self, number: u32) -> Result<Vec<IpNet>, Refused>
        // On success the networks are the maximal blocks of the addresses with this hop; no shorter list has these addresses.
        ensures maximal { IfOk result (λ v. IsMaximal (λ x. hop_at (routes_of self.now) x ≡ Some number) (map block v.items)) }
        ensures shortest { IfOk result (λ v. IsShortest (λ x. hop_at (routes_of self.now) x ≡ Some number) (map block v.items)) }

        // On success they are the blocks of the flat list with this hop, without host bits.
        ensures flat { IfOk result (λ v. map block v.items ≡ blocks_of (filter (λ p. p.number == number) (flat_of (hop_at (routes_of self.now))))) }
        ensures truncated { IfOk result (λ v. All (λ n. IsTruncated (family n) (parts n)) v.items) }

        // It fails only for lack of memory.
        ensures memory { IfErr result (λ e. e ≡ Memory) }
    {
        Ok(self.owned(number)?)
    }

    /// `own`, with the allocator's own error.
    fn owned(&self, number: u32) -> Result<Vec<IpNet>, AllocError>
        ensures maximal { IfOk result (λ v. IsMaximal (λ x. hop_at (routes_of self.now) x ≡ Some number) (map block v.items)) }
        ensures shortest { IfOk result (λ v. IsShortest (λ x. hop_at (routes_of self.now) x ≡ Some number) (map block v.items)) }
        ensures flat { IfOk result (λ v. map block v.items ≡ blocks_of (filter (λ p. p.number == number) (flat_of (hop_at (routes_of self.now))))) }
        ensures truncated { IfOk result (λ v. All (λ n. IsTruncated (family n) (parts n)) v.items) }
    {
        let mut networks = Vec::new(self.alloc());
        let (v4, v6) = self.families();
        self.push_owned(&mut networks, v4, number)?;
        self.push_owned(&mut networks, v6, number)?;
        IpNet::aggregate(self.alloc(), &networks)
    }

    /// Appends the blocks that the routes with this number govern.
    fn push_owned(
        &self,
        networks: &mut Vec<IpNet>,
        routes: Routes<'_>,
        number: u32,
    ) -> Result<(), AllocError>
        requires { IsTable (routes_of self.now) }
        ensures { OnOk result (GrowsBy networks.old.items (IsOwned (routes_of self.now) number routes.entry) networks.new.items) }
    {
        for route in routes {
            self.push_route(networks, route, number)?;
        }
        Ok(())
    }

    /// Appends the blocks that the network governs, if its hop is this number.
    fn push_route(
        &self,
        networks: &mut Vec<IpNet>,
        route: (IpNet, Hop, u16),
        number: u32,
    ) -> Result<(), AllocError>
        requires { IsTable (routes_of self.now) }
        ensures { OnOk result (GrowsBy networks.old.items (λ x. Owns (routes_of self.now) number x (route_of route.0 route.1 route.2)) networks.new.items) }
    {
        let Hop::Number(found) = route.1 else {
            return Ok(());
        };
        if found != number {
            return Ok(());
        }
        push_blocks(networks, self.governs(&cleared(&route.0)))
    }
}
