//! One side of a table: the networks of one family.
ghost use Rattle.std.specs.Prelude.{◌≡◌, ◌≢◌, ◌<◌, ◌≤◌, ◌+◌, ◌/◌, [], ◌∷◌, IfErr, IfOk, IfSome, IsOk, IsTrue, OnErr, OnOk, ◌↔◌, false, is_some, not, if◌then◌else◌, option_map};
ghost use Rattle.ipnet_blocks.specs.Blocks.{IsBlock, bit_string};
ghost use Rattle.ipnet_blocks.specs.Networks.{block_of};
ghost use Rattle.trie_core.specs.Count.{nodes, visit_count};
ghost use Rattle.prefix_trie.specs.declared.refused.Refused.TheVariants.{Memory};
ghost use Rattle.route_choices.specs.Choices.{choices_without, has_none, holds_hop, is_one_too_many};
ghost use Rattle.route_choices.specs.Hops.{IsHop};
ghost use Rattle.route_laws.specs.Onwards.{count_of, routes_after, routes_from};
ghost use Rattle.route_laws.specs.Networks.{IsLeaf, choices_at, networks_outside, routes_of, with_choice, with_choices, without_choice, without_stored};
ghost use Rattle.route_table.specs.InnerFamilyTables.{AddsTo, IsFamilyTable, RemovesFrom};
ghost use Rattle.route_table.specs.Refusals.{IsRefused};
ghost use Rattle.route_table.specs.Tries.{map_of};
ghost use Rattle.route_laws.specs.Tables.{covering, match_of, match_number, routes_inside, item_of};

use crate::family::FamilyNet;
use crate::family_routes::{Entries, FamilyRoutes};
use crate::refused::AddRefused;
use ipnet::IpNet;
use prefix_trie::{PrefixMap, Refused};
use route_choices::{All, Choices, Hop, TooMany};
use std::alloc::{AllocError, Global};
use std::marker::Model;

/// Networks of one family with their routes, ascending, with room for `CAPACITY` routes of each.
///
/// The networks in arguments must be blocks: callers clear the host bits.
#[derive(Drop)]
pub(crate) struct FamilyTable<P: FamilyNet, const CAPACITY: usize> {
    pub(crate) networks: PrefixMap<P, Choices<CAPACITY>>,
}

impl<P: FamilyNet, const CAPACITY: usize> Model for FamilyTable<P, CAPACITY> {
    ghost use Rattle.std.specs.Prelude.{List, ◌≡◌, ◌<◌, ◌≤◌};
    ghost use Rattle.std.specs.FinMap.{empty};
    ghost use Rattle.route_laws.specs.Networks.{Stored};
    ghost use Rattle.route_table.specs.InnerFamilyTables.{IsStored, stored_in};

    ghost Value = { List Stored };

    ghost view = { λ a. stored_in P.family a.networks.entries };

    ghost invariant = { λ a. IsStored P.family a.networks.entries × (a.networks.spares ≡ empty) × (0 < CAPACITY) × (CAPACITY ≤ 8) };
}

impl<P: FamilyNet, const CAPACITY: usize> FamilyTable<P, CAPACITY> {
    /// Makes a side without networks.
    ///
    /// # Errors
    /// None, as in `PrefixMap::new`.
    pub(crate) fn new(alloc: Global) -> Result<FamilyTable<P, CAPACITY>, Refused>
        requires some { 0 < CAPACITY }
        requires few { CAPACITY ≤ 8 }
        ensures networks { IfOk result (λ s. s ≡ []) }
        ensures ok { IsOk result }
    {
        Ok(FamilyTable {
            networks: PrefixMap::new(alloc)?,
        })
    }

    /// Stores one route at the network, in place of all its routes. Returns whether no network is strictly inside it.
    ///
    /// # Errors
    /// `Memory` if the network isn't stored and an allocation fails. The side is unchanged.
    pub(crate) fn store(&mut self, net: P, hop: Hop, pref: u16) -> Result<bool, Refused>
        requires { IsBlock (block_of P.family (P.parts net)) }
        ensures hop { IsHop hop }
        ensures networks { OnOk result (self.new ≡ with_choices self.old (block_of P.family (P.parts net)) (record { hop = hop; pref = pref } ∷ [])) }
        ensures leaf { IfOk result (λ leaf. IsTrue leaf ↔ IsLeaf self.new (block_of P.family (P.parts net))) }
        ensures side { IsFamilyTable P.family self.new }
        ensures memory { IfErr result (λ e. e ≡ Memory) }
        ensures unchanged { OnErr result (self.new ≡ self.old) }
        ensures absent { OnErr result (choices_at self.old (block_of P.family (P.parts net)) ≡ []) }
    {
        let networks = &mut self.networks;
        let choices = Choices::one(hop, pref);
        let (_, is_leaf) = match networks.insert_is_leaf(net, choices) {
            Ok(done) => done,
            Err((refused, _)) => return Err(refused),
        };
        Ok(is_leaf)
    }

    /// Removes every network inside this one, itself included.
    pub(crate) fn remove_inside(&mut self, net: P)
        requires { IsBlock (block_of P.family (P.parts net)) }
        ensures networks { self.new ≡ networks_outside self.old (block_of P.family (P.parts net)) }
        ensures side { IsFamilyTable P.family self.new }
    {
        self.networks.remove_children(&net);
    }

    /// Whether no network is strictly inside this one.
    pub(crate) fn is_leaf(&self, net: P) -> bool
        requires { IsBlock (block_of P.family (P.parts net)) }
        ensures { IsTrue result ↔ IsLeaf self.now (block_of P.family (P.parts net)) }
    {
        self.networks.is_leaf(&net)
    }

    /// The longest match.
    pub(crate) fn get(&self, net: P) -> Option<(IpNet, Hop, u16)>
        requires { IsBlock (block_of P.family (P.parts net)) }
        ensures { result ≡ option_map item_of (match_of (routes_of self.now) (block_of P.family (P.parts net))) }
    {
        let (found, choices) = self.networks.get_lpm(&net)?;
        let (hop, pref) = choices.best();
        Some((found.ip_net(), hop, pref))
    }

    /// The number of networks.
    pub(crate) fn count(&self) -> usize
        ensures { result ≡ count_of P.family (routes_of self.now) }
    {
        self.networks.len()
    }
}

impl<P: FamilyNet> FamilyTable<P, 8> {
    /// The number of the best hop at the longest match, and whether the network itself is stored.
    fn hop_at_match(&self, net: P) -> (Option<u32>, bool)
        requires { IsBlock (block_of P.family (P.parts net)) }
        ensures number { result.0 ≡ match_number (match_of (routes_of self.now) (block_of P.family (P.parts net))) }
        ensures stored { result.1 ≡ not (has_none (choices_at self.now (block_of P.family (P.parts net)))) }
        ensures side { IsFamilyTable P.family self.now }
    {
        match self.networks.longest_match(&net) {
            None => (None, false),
            Some((len, choices)) => {
                let (hop, _) = choices.best();
                (hop.number(), len == net.prefix_len())
            }
        }
    }

    /// Adds a route to the network. If the network has this hop, its preference changes. Returns the numbers of the best hop at the
    /// longest match before and after, and whether the network is new and none is inside it.
    ///
    /// # Errors
    /// The side is unchanged.
    ///
    /// - `TooMany` exactly if the network has eight other hops.
    /// - `Store` if the network isn't stored and an allocation fails.
    pub(crate) fn add(
        &mut self,
        net: P,
        hop: Hop,
        pref: u16,
    ) -> Result<(Option<u32>, Option<u32>, bool), AddRefused>
        requires { IsBlock (block_of P.family (P.parts net)) }
        ensures adds { AddsTo self.old (block_of P.family (P.parts net)) (record { hop = hop; pref = pref }) result self.new }
        ensures side { IsFamilyTable P.family self.new }
    {
        let (before, is_stored) = self.hop_at_match(net);
        if is_stored {
            let after = self.add_stored(net, hop, pref)?;
            return Ok((before, after, false));
        }
        match self.store(net, hop, pref) {
            Ok(is_leaf) => Ok((before, hop.number(), is_leaf)),
            Err(refused) => Err(AddRefused::Store(refused)),
        }
    }

    /// Adds the route to a stored network, and returns the number of its best hop after that.
    fn add_stored(&mut self, net: P, hop: Hop, pref: u16) -> Result<Option<u32>, AddRefused>
        requires block { IsBlock (block_of P.family (P.parts net)) }
        requires stored { choices_at self.old (block_of P.family (P.parts net)) ≢ [] }
        ensures number { IfOk result (λ k. k ≡ match_number (match_of (routes_of self.new) (block_of P.family (P.parts net)))) }
        ensures networks { OnOk result (self.new ≡ with_choice self.old (block_of P.family (P.parts net)) (record { hop = hop; pref = pref })) }
        ensures room { OnOk result (is_one_too_many (choices_at self.old (block_of P.family (P.parts net))) hop ≡ false) }
        ensures side { IsFamilyTable P.family self.new }
        ensures refused { IfErr result (IsRefused (choices_at self.old (block_of P.family (P.parts net))) hop) }
        ensures unchanged { OnErr result (self.new ≡ self.old) }
    {
        let (_, choices) = self.networks.match_mut(&net, net.prefix_len());
        if let Err(TooMany) = choices.add(hop, pref) {
            return Err(AddRefused::TooMany);
        }
        let (best, _) = choices.best();
        Ok(best.number())
    }

    /// Removes the route of this hop from the network, if it has one, and removes the network with its last route. Returns the numbers of
    /// the best hop at the longest match before and after.
    pub(crate) fn remove(&mut self, net: P, hop: Hop) -> Option<(Option<u32>, Option<u32>)>
        requires { IsBlock (block_of P.family (P.parts net)) }
        ensures removes { RemovesFrom self.old (block_of P.family (P.parts net)) hop result self.new }
        ensures side { IsFamilyTable P.family self.new }
    {
        let choices = self.networks.get(&net)?;
        let (best, _) = choices.best();
        let before = best.number();
        if choices.has_no_other(hop) {
            self.networks.remove(&net);
            let (after, _) = self.hop_at_match(net);
            return Some((before, after));
        }
        let after = self.remove_stored(net, hop)?;
        Some((before, after))
    }

    /// Removes the route of this hop from a network that has a route of another hop. Returns the number of the network's best hop after
    /// that, or `None` if there was no such route.
    fn remove_stored(&mut self, net: P, hop: Hop) -> Option<Option<u32>>
        requires block { IsBlock (block_of P.family (P.parts net)) }
        requires others { choices_without (choices_at self.old (block_of P.family (P.parts net))) hop ≢ [] }
        ensures held { is_some result ≡ holds_hop (choices_at self.old (block_of P.family (P.parts net))) hop }
        ensures number { IfSome result (λ k. k ≡ match_number (match_of (routes_of self.new) (block_of P.family (P.parts net)))) }
        ensures networks { self.new ≡ without_choice self.old (block_of P.family (P.parts net)) hop }
        ensures side { IsFamilyTable P.family self.new }
    {
        let (_, choices) = self.networks.match_mut(&net, net.prefix_len());
        let held = choices.remove(hop);
        let (best, _) = choices.best();
        held.then_some(best.number())
    }

    /// The routes of exactly this network, best first.
    pub(crate) fn all(&self, net: P) -> All<'_>
        requires { IsBlock (block_of P.family (P.parts net)) }
        ensures { result ≡ choices_at self.now (block_of P.family (P.parts net)) }
    {
        match self.networks.get(&net) {
            Some(choices) => choices.all(),
            None => All::none(),
        }
    }

    /// The number of trie nodes that the search for the longest match visits.
    pub(crate) fn visits(&self, net: P) -> u32
        requires { IsBlock (block_of P.family (P.parts net)) }
        ensures visits { result ≡ visit_count (map_of P.family self.now) (bit_string (block_of P.family (P.parts net))) }
        ensures bound { result ≤ (P.parts net).len / 5 + 1 }
    {
        self.networks.get_lpm_visits(&net).1
    }

    /// The number of nodes of the trie.
    pub(crate) fn node_count(&self) -> usize
        ensures { result ≡ nodes (map_of P.family self.now) }
    {
        self.networks.node_count()
    }

    /// The best routes of all networks.
    pub(crate) fn iter(&self) -> FamilyRoutes<'_, P>
        ensures { result ≡ routes_of self.now }
    {
        FamilyRoutes::new(Entries::Walk(self.networks.iter()))
    }

    /// The best routes of the networks inside this one, itself included.
    pub(crate) fn list(&self, net: P) -> FamilyRoutes<'_, P>
        requires { IsBlock (block_of P.family (P.parts net)) }
        ensures { result ≡ routes_inside (routes_of self.now) (block_of P.family (P.parts net)) }
    {
        FamilyRoutes::new(Entries::Walk(self.networks.children(&net)))
    }

    /// The best routes of the networks that contain this one, itself included, the shortest first.
    pub(crate) fn cover(&self, net: P) -> FamilyRoutes<'_, P>
        requires { IsBlock (block_of P.family (P.parts net)) }
        ensures { result ≡ covering (routes_of self.now) (block_of P.family (P.parts net)) }
    {
        FamilyRoutes::new(Entries::Cover(self.networks.cover(&net)))
    }

    /// The best routes of the networks that come after this one, and of the network itself if `inclusive`.
    pub(crate) fn onwards(&self, net: P, inclusive: bool) -> FamilyRoutes<'_, P>
        requires { IsBlock (block_of P.family (P.parts net)) }
        ensures { result ≡ (if inclusive then routes_from (routes_of self.now) (block_of P.family (P.parts net)) else routes_after (routes_of self.now) (block_of P.family (P.parts net))) }
    {
        FamilyRoutes::new(Entries::Walk(self.networks.iter_from(&net, inclusive)))
    }
}

impl<P: FamilyNet> FamilyTable<P, 1> {
    /// The routes of all networks.
    pub(crate) fn iter(&self) -> FamilyRoutes<'_, P>
        ensures { result ≡ routes_of self.now }
    {
        FamilyRoutes::new(Entries::Hops(self.networks.iter()))
    }

    /// The routes of the networks inside this one, itself included.
    pub(crate) fn list(&self, net: P) -> FamilyRoutes<'_, P>
        requires { IsBlock (block_of P.family (P.parts net)) }
        ensures routes { result ≡ routes_inside (routes_of self.now) (block_of P.family (P.parts net)) }
        ensures side { IsFamilyTable P.family self.now }
    {
        FamilyRoutes::new(Entries::Hops(self.networks.children(&net)))
    }

    /// The routes of all networks. The memory of each part of the trie is freed after the walk over it.
    ///
    /// # Errors
    /// `AllocError` if an allocation for the walk fails.
    pub(crate) fn into_routes<'a>(self, alloc: Global) -> Result<FamilyRoutes<'a, P>, AllocError>
        ensures { IfOk result (λ r. r ≡ routes_of self) }
    {
        let walk = Box::new(alloc, self.networks.into_iter())?;
        Ok(FamilyRoutes::new(Entries::Owned(walk)))
    }

    /// Removes exactly this network, if it is stored.
    pub(crate) fn remove(&mut self, net: P)
        requires { IsBlock (block_of P.family (P.parts net)) }
        ensures networks { self.new ≡ without_stored self.old (block_of P.family (P.parts net)) }
        ensures side { IsFamilyTable P.family self.new }
    {
        self.networks.remove(&net);
    }
}
