//! A route table.
ghost use Rattle.std.specs.Prelude.{◌≡◌, [], List, Some, IfErr, IfOk, OnOk, if◌then◌else◌, length};
ghost use Rattle.std.specs.Option.{option_map};
ghost use Rattle.ipnet_addr.specs.Addresses.{Address, IsAddress};
ghost use Rattle.ipnet.specs.IpNets.{block};
ghost use Rattle.ipnet_blocks.specs.Blocks.{is_inside};
ghost use Rattle.prefix_trie.specs.declared.refused.Refused.TheVariants.{Memory};
ghost use Rattle.route_choices.specs.Choices.{choices_with};
ghost use Rattle.route_laws.specs.LeastTables.{routes_for};
ghost use Rattle.route_laws.specs.Nearest.{IsFewestTo};
ghost use Rattle.route_laws.specs.Networks.{best_route, choices_at, routes_of};
ghost use Rattle.route_laws.specs.Operations.{IsHitless, Operation, after_all};
ghost use Rattle.route_laws.specs.Painted.{painted_all};
ghost use Rattle.route_laws.specs.Tables.{hop_at, longer, match_of, item_of};

use ipnet::IpNet;
use route_table::laws::{best_routes, fewest, flat, held, updates};
use route_table::{AddRefused, DEFAULT_PREFERENCE, Hop, HopTable, Refused, RouteTable};

/// Returns the result of `get` after an accepted `add`. If the new network contains the asked network, it is the longer of two routes:
/// the new network's best one, and the result of `get` before. Else it is the result of `get` before.
///
/// # Errors
/// Those of `RouteTable::add`; this contract says nothing of them.
pub fn routed(
    table: &mut RouteTable,
    net: IpNet,
    hop: Hop,
    pref: u16,
    asked: &IpNet,
) -> Result<Option<(IpNet, Hop, u16)>, AddRefused>
    ensures { IfOk result (λ found. found ≡ option_map item_of (if is_inside (block asked.now) (block net)
        then Some (longer (best_route (record { block = block net; choices = choices_with (choices_at table.old (block net)) (record { hop = hop; pref = pref }) })) (match_of (routes_of table.old) (block asked.now)))
        else match_of (routes_of table.old) (block asked.now))) }
{
    held();
    best_routes();
    let _asked = asked.trunc();
    table.add(net, hop, pref)?;
    Ok(table.get(asked))
}

/// Adds each block of a table's flat list to an empty table. Each address then has the same hop in both.
///
/// # Errors
/// Those of `RouteTable::add`; this contract says nothing of them.
pub fn rebuilt(table: &RouteTable, empty: &mut RouteTable) -> Result<(), AddRefused>
    requires { empty.old ≡ [] }
    ensures { OnOk result ((x : Address) → IsAddress x → hop_at (routes_of empty.new) x ≡ hop_at (routes_of table.now) x) }
{
    flat();
    fewest();
    for (net, number) in table.flat() {
        empty.add(net, Hop::Number(number), DEFAULT_PREFERENCE)?;
    }
    Ok(())
}

/// Carries out the operations of `updates`, and returns their number. No fewer operations give each address its hop after the changes,
/// and on the way each address changes its hop at most once.
///
/// # Errors
/// `Memory` if an allocation fails; this contract says nothing of the table then.
pub fn updated(table: &mut HopTable, changes: &[(IpNet, Hop)]) -> Result<usize, Refused>
    ensures fewest { IfOk result (λ n. (os : List Operation) × (routes_of table.new ≡ after_all (routes_of table.old) os) × (n ≡ length os)
        × IsFewestTo (routes_of table.old) (hop_at (painted_all (routes_of table.old) (routes_for changes.now))) os × IsHitless (routes_of table.old) os) }
    ensures memory { IfErr result (λ e. e ≡ Memory) }
{
    updates();
    let operations = table.updates(changes)?;
    table.carry_out(operations.as_slice())?;
    Ok(operations.len())
}
