//! Giving all addresses of a network one hop.
ghost use Rattle.std.specs.Prelude.{◌≡◌, ◌≢◌, [], IfErr, OnErr, OnOk, if◌then◌else◌};
ghost use Rattle.ipnet_addr.specs.Addresses.{Address, IsAddress};
ghost use Rattle.ipnet_blocks.specs.Blocks.{IsBlock, has_address};
ghost use Rattle.ipnet.specs.IpNets.{block};
ghost use Rattle.prefix_trie.specs.declared.refused.Refused.TheVariants.{Memory};
ghost use Rattle.route_choices.specs.Choices.{default_preference};
ghost use Rattle.route_choices.specs.Hops.{IsHop, number_of};
ghost use Rattle.route_laws.specs.Networks.{IsStoredTable, choices_at, routes_of};
ghost use Rattle.route_laws.specs.Overwritten.{without_inside};
ghost use Rattle.route_laws.specs.Painted.{painted};
ghost use Rattle.route_laws.specs.Tables.{IsTable, hop_at, match_number, match_of, route_of};

use crate::hop_table::HopTable;
use crate::table::cleared;
use ipnet::IpNet;
use prefix_trie::Refused;
use route_choices::Hop;

impl HopTable {
    /// Removes every network inside this one, itself included. Then it stores one route for it, unless the routes outside give its addresses
    /// this hop already. All addresses of the network then have the hop, and all others keep theirs. If it stores no route, it does not
    /// allocate.
    ///
    /// # Errors
    /// `Memory` if the network isn't stored, the routes outside give its addresses another hop, and an allocation fails. The table is
    /// unchanged.
    ///
    /// # Examples
    /// If `wide`, 10.0.0.0/8, has the hop 3, and `half` is 10.0.0.0/9:
    ///
    /// ```rust
    /// assert_eq!(rt; table.paint(half, Hop::Number(3)), Ok(()));
    /// assert_eq!(rt; table.get(&half), Some((wide, Hop::Number(3), 100)));
    /// ```
    pub fn paint(&mut self, net: IpNet, hop: Hop) -> Result<(), Refused>
        // On success the network has one route, or none if it inherits the hop, and no other network inside it is stored.
        ensures routes { OnOk result (routes_of self.new ≡ painted (routes_of self.old) (route_of net hop default_preference)) }

        // Before and after, the stored networks ascend, each with its routes, best first; the network and the hop are valid.
        ensures tables { IsStoredTable self.old × IsStoredTable self.new }
        ensures change { IsBlock (block net) × IsHop hop }

        // On success the addresses of the network have the new hop, and all others keep theirs.
        ensures hops { OnOk result ((x : Address) → IsAddress x → hop_at (routes_of self.new) x ≡ (if has_address (block net) x then number_of hop else hop_at (routes_of self.old) x)) }

        // It fails only for lack of memory, at a network that isn't stored and doesn't inherit the hop, and the table is unchanged.
        ensures memory { IfErr result (λ e. e ≡ Memory) }
        ensures unchanged { OnErr result (self.new ≡ self.old) }
        ensures absent { OnErr result (choices_at self.old (block net) ≡ []) }
        ensures needed { OnErr result (match_number (match_of (without_inside (routes_of self.old) (block net)) (block net)) ≢ number_of hop) }
    {
        let net = cleared(&net);
        if self.inherited(&net) == hop.number() {
            self.remove_inside(&net);
            return Ok(());
        }
        self.overwrite(net, hop)
    }

    /// The number of the hop that the network's addresses inherit from the routes outside it.
    pub(crate) fn inherited(&self, net: &IpNet) -> Option<u32>
        requires { IsBlock (block net.now) }
        ensures { IsTable (routes_of self.now) → result ≡ match_number (match_of (without_inside (routes_of self.now) (block net.now)) (block net.now)) }
    {
        let (_, hop, _) = self.get(&net.supernet()?)?;
        hop.number()
    }
}
