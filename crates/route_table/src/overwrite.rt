//! Replacing all routes inside a network with one route.
ghost use Rattle.std.specs.Prelude.{◌≡◌, ◌<◌, [], OnErr, OnOk, IfErr, if◌then◌else◌};
ghost use Rattle.ipnet_addr.specs.Addresses.{Address, IsAddress, width};
ghost use Rattle.ipnet_blocks.specs.Blocks.{IsBlock, has_address, left, right};
ghost use Rattle.ipnet.specs.IpNets.{block, family, parts};
ghost use Rattle.prefix_trie.specs.declared.refused.Refused.TheVariants.{Memory};
ghost use Rattle.route_choices.specs.Choices.{default_preference};
ghost use Rattle.route_choices.specs.Hops.{IsHop, number_of};
ghost use Rattle.route_laws.specs.Networks.{IsStoredTable, choices_at, networks_outside, overwritten_by, routes_of};
ghost use Rattle.route_laws.specs.Tables.{hop_at};

use crate::table::{Table, cleared};
use ipnet::IpNet;
use prefix_trie::Refused;
use route_choices::{DEFAULT_PREFERENCE, Hop};

/// The lower and the upper half of a network with more than one address: the networks one bit longer. The upper half has host bits.
fn halves(net: &IpNet) -> (IpNet, IpNet)
    requires { (parts net.now).len < width (family net.now) }
    ensures lower { block result.0 ≡ left (block net.now) }
    ensures upper { block result.1 ≡ right (block net.now) }
{
    let len = net.prefix_len() + 1;
    (
        IpNet::new_assert(net.network(), len),
        IpNet::new_assert(net.broadcast(), len),
    )
}

impl<const CAPACITY: usize> Table<CAPACITY> {
    /// Removes every network inside this one, its own routes included, and stores one route for it, with this hop and preference 100. All
    /// addresses of the network then have the new hop, and all others keep their hop.
    ///
    /// # Errors
    /// `Memory` if the network isn't stored and an allocation fails. The table is unchanged. For a stored network it never fails.
    ///
    /// # Examples
    /// If `wide`, 10.0.0.0/8, and `half`, 10.0.0.0/9, are stored:
    ///
    /// ```rust
    /// assert_eq!(rt; table.overwrite(wide, Hop::Number(3)), Ok(()));
    /// assert!(rt; matches!(table.get(&half), Some((_, Hop::Number(3), 100))));
    /// ```
    pub fn overwrite(&mut self, net: IpNet, hop: Hop) -> Result<(), Refused>
        // On success the network has one route, with preference 100, and no other network inside it is stored.
        ensures networks { OnOk result (self.new ≡ overwritten_by self.old (block net) (record { hop = hop; pref = default_preference })) }

        // Before and after, the stored networks ascend, each with its routes, best first; the network and the hop are valid.
        ensures tables { IsStoredTable self.old × IsStoredTable self.new }
        ensures change { IsBlock (block net) × IsHop hop }

        // On success the addresses of the network have the new hop, and all others keep theirs.
        ensures hops { OnOk result ((x : Address) → IsAddress x → hop_at (routes_of self.new) x ≡ (if has_address (block net) x then number_of hop else hop_at (routes_of self.old) x)) }

        // It fails only for lack of memory, at a network that isn't stored, and the table is unchanged.
        ensures memory { IfErr result (λ e. e ≡ Memory) }
        ensures unchanged { OnErr result (self.new ≡ self.old) }
        ensures absent { OnErr result (choices_at self.old (block net) ≡ []) }
    {
        let net = cleared(&net);
        let is_leaf = self.store(net, hop, DEFAULT_PREFERENCE)?;
        if !is_leaf {
            let (lower, upper) = halves(&net);
            self.remove_inside(&lower);
            self.remove_inside(&upper);
        }
        Ok(())
    }

    /// Removes every network inside this one, itself included.
    pub(crate) fn remove_inside(&mut self, net: &IpNet)
        requires { IsBlock (block net.now) }
        ensures networks { self.new ≡ networks_outside self.old (block net.now) }
        ensures tables { IsStoredTable self.old × IsStoredTable self.new }
    {
        match *net {
            IpNet::V4(net) => self.v4.remove_inside(net),
            IpNet::V6(net) => self.v6.remove_inside(net),
        }
    }
}
