//! Updates of a table by the fewest operations.
ghost use Rattle.std.specs.Prelude.{◌≡◌, ◌≤◌, All, [], ◌∷◌, IfErr, IfOk, MatchOption, OnErr, OnOk, IsTrue, length, map};
ghost use Rattle.ipnet_addr.specs.Addresses.{Ipv4, Ipv6, width};
ghost use Rattle.ipnet_blocks.specs.BitStrings.{begins};
ghost use Rattle.ipnet_blocks.specs.Networks.{IsTruncated};
ghost use Rattle.ipnet.specs.IpNets.{block, family, network_at, parts};
ghost use Rattle.nearest_table.specs.Changed.{AreInside, MakeNearest};
ghost use Rattle.prefix_trie.specs.declared.refused.Refused.TheVariants.{Memory};
ghost use Rattle.route_choices.specs.Hops.{IsHop, number_of};
ghost use Rattle.route_laws.specs.LeastTables.{routes_for};
ghost use Rattle.route_laws.specs.Nearest.{AreUpdates};
ghost use Rattle.route_laws.specs.Networks.{IsStoredTable, routes_of};
ghost use Rattle.route_laws.specs.Operations.{after, after_all};
ghost use Rattle.route_laws.specs.Painted.{AreChanges};
ghost use Rattle.route_laws.specs.Tables.{IsTable};
ghost use Rattle.route_table.specs.InnerLeast.{entries_of};
ghost use Rattle.route_table.specs.InnerFamilyTables.{IsFamilyTable, block_at};
ghost use Rattle.route_table.specs.InnerUpdates.{AddsInstalls, AddsRemoves, AreEditsFor, AreWithin, GivesPath, MakeBoth, operations_of, overwritten_all, routes_in};
ghost use Rattle.route_table.specs.Operations.{EndsAtInstall, IsNewInstall, network_of, operation_of};

use crate::between::Operation;
use crate::family::FamilyNet;
use crate::family_routes::FamilyRoutes;
use crate::family_table::FamilyTable;
use crate::hop_table::HopTable;
use crate::least::hop_of;
use crate::one_change::OneChange;
use crate::table::cleared;
use ipnet::{IpNet, Ipv4Net, Ipv6Net};
use nearest_table::nearest;
use prefix_trie::{Prefix, Refused, path_of, prefix_of, truncated};
use route_choices::Hop;
use std::alloc::{AllocError, Global};
use trie_core::Path;

/// An edit of one family: a block, and the hop to install, or none if its route is removed.
type Edit = (Path, Option<Option<u32>>);

/// The changes as a table. Each replaces those inside its network.
fn table_of(alloc: Global, changes: &[(IpNet, Hop)]) -> Result<HopTable, Refused>
    ensures routes { IfOk result (λ t. routes_of t ≡ overwritten_all [] (routes_for changes.now)) }
    ensures changes { IfOk result (λ t. AreChanges (routes_for changes.now)) }
    ensures memory { IfErr result (λ e. e ≡ Memory) }
{
    let mut table = HopTable::new(alloc)?;
    for (net, hop) in changes {
        table.overwrite(*net, *hop)?;
    }
    Ok(table)
}

/// The path of the next network.
fn next_path<P: FamilyNet>(routes: &mut FamilyRoutes<'_, P>) -> Option<Path>
    ensures { GivesPath P.family routes.old result routes.new }
{
    let (net, _, _) = routes.next_net()?;
    Some(path_of(&net))
}

/// The block, or the smallest larger one that contains the other block too.
fn widened<P: FamilyNet>(block: &Path, other: &Path) -> Path
    requires block { length block.now ≤ width P.family }
    requires other { length other.now ≤ width P.family }
    ensures block { IsTrue (begins result block.now) }
    ensures other { IsTrue (begins result other.now) }
    ensures fits { length result ≤ width P.family }
{
    let net: P = prefix_of(other);
    let mut wide: P = prefix_of(block);
    while !wide.contains(&net) {
        wide = truncated(&wide, wide.prefix_len() - 1);
    }
    path_of(&wide)
}

/// A block that contains all networks of a side, or none if it has none.
fn around<P: FamilyNet>(side: &FamilyTable<P, 1>) -> Option<Path>
    requires { IsFamilyTable P.family side.now }
    ensures { MatchOption result (routes_of side.now ≡ []) (λ b. (length b ≤ width P.family) × AreInside (width P.family) b (entries_of (routes_of side.now))) }
{
    let mut routes = side.iter();
    let mut block = next_path(&mut routes)?;
    while let Some(path) = next_path(&mut routes) {
        block = widened::<P>(&block, &path);
    }
    Some(block)
}

/// The fewest edits of one side that give the addresses their hops after the changes.
fn edits_of<P: FamilyNet>(
    alloc: Global,
    installed: &FamilyTable<P, 1>,
    changes: &FamilyTable<P, 1>,
) -> Result<Vec<Edit>, AllocError>
    requires installed { IsFamilyTable P.family installed.now }
    requires changes { IsFamilyTable P.family changes.now }
    ensures edits { IfOk result (λ es. MakeNearest (width P.family) (entries_of (routes_of changes.now)) (entries_of (routes_of installed.now)) es.items) }
    ensures within { IfOk result (λ es. AreWithin (width P.family) es.items) }
{
    match around(changes) {
        Some(block) => nearest(alloc, installed, changes, &block),
        None => Ok(Vec::new(alloc)),
    }
}

/// The fewest edits of one side that one change needs. Host bits of the network don't count. Nothing is allocated for the change.
fn edits_of_one<P: FamilyNet>(
    alloc: Global,
    installed: &FamilyTable<P, 1>,
    net: P,
    hop: Hop,
) -> Result<Vec<Edit>, AllocError>
    requires { IsFamilyTable P.family installed.now }
    ensures edits { IfOk result (λ es. MakeNearest (width P.family) ((P.bits net, number_of hop) ∷ []) (entries_of (routes_of installed.now)) es.items) }
    ensures within { IfOk result (λ es. AreWithin (width P.family) es.items) }
    ensures hop { IfOk result (λ es. IsHop hop) }
{
    let change = OneChange {
        net,
        hop: hop.number(),
    };
    nearest(alloc, installed, &change, &path_of(&net))
}

/// The network of a block.
fn network<P: FamilyNet>(path: &Path) -> IpNet
    requires { length path.now ≤ width P.family }
    ensures { result ≡ network_at (block_at P.family path.now) }
{
    prefix_of::<P>(path).ip_net()
}

/// Adds the install of an edit, if it is one.
fn push_install<P: FamilyNet>(
    path: &Path,
    edit: Option<Option<u32>>,
    operations: &mut Vec<Operation>,
) -> Result<(), AllocError>
    requires { length path.now ≤ width P.family }
    ensures { OnOk result (AddsInstalls P.family ((path.now, edit) ∷ []) operations.old.items operations.new.items) }
{
    if let Some(hop) = edit {
        let net = network::<P>(path);
        let hop = hop_of(hop);
        operations.push(Operation::Install { net, hop })?;
    }
    Ok(())
}

/// Adds the installs of one family, from the last to the first.
fn push_installs<P: FamilyNet>(
    edits: &[Edit],
    operations: &mut Vec<Operation>,
) -> Result<(), AllocError>
    requires { AreWithin (width P.family) edits.now }
    ensures { OnOk result (AddsInstalls P.family edits.now operations.old.items operations.new.items) }
{
    let mut rest = edits;
    while let Some(((path, edit), front)) = rest.split_last() {
        push_install::<P>(path, *edit, operations)?;
        rest = front;
    }
    Ok(())
}

/// Adds the remove of an edit, if it is one.
fn push_remove<P: FamilyNet>(
    path: &Path,
    edit: Option<Option<u32>>,
    operations: &mut Vec<Operation>,
) -> Result<(), AllocError>
    requires { length path.now ≤ width P.family }
    ensures { OnOk result (AddsRemoves P.family ((path.now, edit) ∷ []) operations.old.items operations.new.items) }
{
    if let None = edit {
        let net = network::<P>(path);
        operations.push(Operation::Remove { net })?;
    }
    Ok(())
}

/// Adds the removes of one family, from the first to the last.
fn push_removes<P: FamilyNet>(
    edits: &[Edit],
    operations: &mut Vec<Operation>,
) -> Result<(), AllocError>
    requires { AreWithin (width P.family) edits.now }
    ensures { OnOk result (AddsRemoves P.family edits.now operations.old.items operations.new.items) }
{
    for (path, edit) in edits {
        push_remove::<P>(path, *edit, operations)?;
    }
    Ok(())
}

/// The operations of the edits of both families. All installs come first, from the last network to the first, and then all removes, from
/// the first to the last.
fn operations(alloc: Global, v4: &[Edit], v6: &[Edit]) -> Result<Vec<Operation>, AllocError>
    requires v4 { AreWithin (width Ipv4) v4.now }
    requires v6 { AreWithin (width Ipv6) v6.now }
    ensures operations { IfOk result (λ os. map operation_of os.items ≡ operations_of v4.now v6.now) }
    ensures ipv4_hops { IfOk result (λ os. All (λ r. IsHop r.hop) (routes_in Ipv4 v4.now)) }
    ensures ipv6_hops { IfOk result (λ os. All (λ r. IsHop r.hop) (routes_in Ipv6 v6.now)) }
    ensures truncated { IfOk result (λ os. All (λ o. IsTruncated (family (network_of o)) (parts (network_of o))) os.items) }
{
    let mut operations = Vec::new(alloc);
    push_installs::<Ipv6Net>(v6, &mut operations)?;
    push_installs::<Ipv4Net>(v4, &mut operations)?;
    push_removes::<Ipv4Net>(v4, &mut operations)?;
    push_removes::<Ipv6Net>(v6, &mut operations)?;
    Ok(operations)
}

impl HopTable {
    /// Returns the fewest operations that carry out the changes. If they are carried out on this table, each address gets the hop of the last
    /// change that contains it, and all others keep their hop. No fewer operations do this. All installs come before all removes, and on the
    /// way each address changes its hop at most once (`route_laws::laws::updates`). The table stays as it is: `carry_out` changes it.
    ///
    /// The networks of the operations have no host bits. If there are several such sequences, any of them may be returned.
    ///
    /// # Errors
    /// `Memory` if an allocation fails, for the operations or for the computation.
    ///
    /// # Examples
    /// 10.0.0.0/8 has the hop 1, and `half`, 10.0.0.0/9, the hop 2. If all addresses of `half` are to get the hop 1:
    ///
    /// ```rust
    /// let changes = [(half, Hop::Number(1))];
    /// let updates = table.updates(&changes).expect(rt, "memory");
    /// assert_eq!(rt; updates.as_slice(), [Operation::Remove { net: half }].as_slice());
    /// ```
    pub fn updates(&self, changes: &[(IpNet, Hop)]) -> Result<Vec<Operation>, Refused>
        ensures updates { IfOk result (λ os. AreUpdates (routes_of self.now) (routes_for changes.now) (map operation_of os.items)) }
        ensures truncated { IfOk result (λ os. All (λ o. IsTruncated (family (network_of o)) (parts (network_of o))) os.items) }
        ensures memory { IfErr result (λ e. e ≡ Memory) }
        ensures changes { OnOk result (AreChanges (routes_for changes.now)) }
        ensures table { IsTable (routes_of self.now) }
    {
        let alloc = self.alloc;
        let (v4, v6) = self.edits(changes)?;
        Ok(operations(alloc, v4.as_slice(), v6.as_slice())?)
    }

    /// The fewest edits of each family that give the addresses their hops after the changes. Only several changes become a table.
    fn edits(&self, changes: &[(IpNet, Hop)]) -> Result<(Vec<Edit>, Vec<Edit>), Refused>
        ensures edits { IfOk result (λ es. AreEditsFor (routes_for changes.now) (routes_of self.now) es.0.items es.1.items) }
        ensures memory { IfErr result (λ e. e ≡ Memory) }
    {
        match changes {
            [(net, hop)] => Ok(self.edits_of_change(net, *hop)?),
            _ => {
                let changes = table_of(self.alloc, changes)?;
                Ok(self.edits_of_table(&changes)?)
            }
        }
    }

    /// The fewest edits of each family that one change needs.
    fn edits_of_change(&self, net: &IpNet, hop: Hop) -> Result<(Vec<Edit>, Vec<Edit>), AllocError>
        ensures { IfOk result (λ es. AreEditsFor (routes_for ((net.now, hop) ∷ [])) (routes_of self.now) es.0.items es.1.items) }
    {
        match cleared(net) {
            IpNet::V4(net) => {
                let v4 = edits_of_one(self.alloc, &self.v4, net, hop)?;
                Ok((v4, Vec::new(self.alloc)))
            }
            IpNet::V6(net) => {
                let v6 = edits_of_one(self.alloc, &self.v6, net, hop)?;
                Ok((Vec::new(self.alloc), v6))
            }
        }
    }

    /// The fewest edits of each family that a table of changes needs.
    fn edits_of_table(&self, changes: &HopTable) -> Result<(Vec<Edit>, Vec<Edit>), AllocError>
        ensures { IfOk result (λ es. MakeBoth (routes_of changes.now) (routes_of self.now) es.0.items es.1.items) }
    {
        let v4 = edits_of(self.alloc, &self.v4, &changes.v4)?;
        let v6 = edits_of(self.alloc, &self.v6, &changes.v6)?;
        Ok((v4, v6))
    }

    /// Carries out the operations, in order.
    ///
    /// # Errors
    /// `Memory` if a network is to be installed that isn't stored, and an allocation for it fails. All operations before this one are
    /// carried out, and none from it on. If the operations are those of `updates`, each address has its old hop or its new one.
    ///
    /// # Examples
    /// With the operations of `updates`:
    ///
    /// ```rust
    /// assert_eq!(rt; table.carry_out(updates.as_slice()), Ok(()));
    /// assert!(rt; matches!(table.get(&half), Some((_, Hop::Number(1), 100))));
    /// ```
    pub fn carry_out(&mut self, operations: &[Operation]) -> Result<(), Refused>
        ensures routes { OnOk result (routes_of self.new ≡ after_all (routes_of self.old) (map operation_of operations.now)) }
        ensures tables { IsStoredTable self.old × IsStoredTable self.new }

        // It fails only for lack of memory, at the first install of a new network that an allocation fails for.
        ensures memory { IfErr result (λ e. e ≡ Memory) }
        ensures first { OnErr result (EndsAtInstall self.old operations.now self.new) }
    {
        self.is_table();
        for operation in operations {
            self.carry_one(*operation)?;
        }
        Ok(())
    }

    /// Carries out one operation.
    fn carry_one(&mut self, operation: Operation) -> Result<(), Refused>
        ensures routes { OnOk result (routes_of self.new ≡ after (routes_of self.old) (operation_of operation)) }
        ensures tables { IsStoredTable self.old × IsStoredTable self.new }
        ensures memory { IfErr result (λ e. e ≡ Memory) }
        ensures unchanged { OnErr result (self.new ≡ self.old) }
        ensures absent { OnErr result (IsNewInstall self.old operation) }
    {
        match operation {
            Operation::Install { net, hop } => self.install(net, hop),
            Operation::Remove { net } => {
                self.remove(&cleared(&net));
                Ok(())
            }
        }
    }
}
