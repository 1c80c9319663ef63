//! The calls of a table that are met first, as the comments of these calls show them.
use crate::tests::indexes::address;
use crate::tests::tables::{net, table};
use hop_index::HopIndex;
use route_table::{Hop, HopRun, HopTable, Operation, RouteTable};
use std::alloc::Global;
use std::process::Abort;

/// 10.0.0.0/8 to hop 1, and its first half to hop 2, in an empty table.
fn added(rt: &impl Abort, table: &mut RouteTable) {
    let wide = net(rt, "10.0.0.0/8");
    let half = net(rt, "10.0.0.0/9");
    assert_eq!(rt; table.add(wide, Hop::Number(1), 100), Ok((None, Some(1))));
    assert_eq!(rt;
        table.add(half, Hop::Number(2), 100),
        Ok((Some(1), Some(2)))
    );
}

/// The longest match.
fn found(rt: &impl Abort, table: &RouteTable) {
    let half = net(rt, "10.0.0.0/9");
    let host = net(rt, "10.1.2.3/32");
    assert_eq!(rt; table.get(&host), Some((half, Hop::Number(2), 100)));
}

/// Both routes.
fn listed(rt: &impl Abort, table: &RouteTable) {
    let all = net(rt, "0.0.0.0/0");
    let wide = net(rt, "10.0.0.0/8");
    let half = net(rt, "10.0.0.0/9");
    let mut routes = table.list(&all);
    assert_eq!(rt; routes.next(), Some((wide, Hop::Number(1), 100)));
    assert_eq!(rt; routes.next(), Some((half, Hop::Number(2), 100)));
    assert_eq!(rt; routes.next(), None);
}

/// How many networks there are, and which have none inside.
fn counted(rt: &impl Abort, table: &RouteTable) {
    let wide = net(rt, "10.0.0.0/8");
    let half = net(rt, "10.0.0.0/9");
    assert_eq!(rt; table.count(), (2, 0));
    assert!(rt; table.is_leaf(&half));
    assert!(rt; !table.is_leaf(&wide));
}

/// The first route of each walk.
fn walked(rt: &impl Abort, table: &RouteTable) {
    let wide = net(rt, "10.0.0.0/8");
    let half = net(rt, "10.0.0.0/9");
    let host = net(rt, "10.1.2.3/32");
    let shortest = table.cover(&host).next();
    assert_eq!(rt; shortest, Some((wide, Hop::Number(1), 100)));
    let here = table.from(&wide).next();
    assert_eq!(rt; here, Some((wide, Hop::Number(1), 100)));
    let later = table.after(&wide).next();
    assert_eq!(rt; later, Some((half, Hop::Number(2), 100)));
}

/// The routes of one network.
fn routes_of_one(rt: &impl Abort, table: &RouteTable) {
    let half = net(rt, "10.0.0.0/9");
    let mut all = table.all(&half);
    assert_eq!(rt; all.next(), Some((Hop::Number(2), 100)));
    assert_eq!(rt; all.next(), None);
}

/// Blocks and a run of one hop.
fn of_one_hop(rt: &impl Abort, table: &RouteTable) {
    let wide = net(rt, "10.0.0.0/8");
    let half = net(rt, "10.0.0.0/9");
    let other_half = net(rt, "10.128.0.0/9");
    let block = table.governed(&wide).next();
    assert_eq!(rt; block, Some(other_half));
    let run = table.flat().next_run();
    assert_eq!(rt; run, Some(HopRun::V4(0x0a00_0000, 0x0a7f_ffff, 2)));
    let own = table.own(2).expect(rt, "memory");
    assert_eq!(rt; own.as_slice(), [half].as_slice());
}

/// Both halves of 10.0.0.0/8.
fn flat_list(rt: &impl Abort, table: &RouteTable) {
    let half = net(rt, "10.0.0.0/9");
    let other_half = net(rt, "10.128.0.0/9");
    let mut flat = table.flat();
    assert_eq!(rt; flat.next(), Some((half, 2)));
    assert_eq!(rt; flat.next(), Some((other_half, 1)));
    assert_eq!(rt; flat.next(), None);
}

/// The hops of addresses, by an index.
fn indexed<R: Abort + Alloc<A = Global>>(rt: &R, table: &RouteTable) {
    let index = HopIndex::from_table(rt.alloc(), &table).expect(&rt, "an index");
    assert_eq!(rt; index.hop(address(&rt, "10.1.2.3")), Some(2));
    assert_eq!(rt; index.hop(address(&rt, "11.0.0.1")), None);
}

/// The same hops, found at once.
fn indexed_at_once<R: Abort + Alloc<A = Global>>(rt: &R, table: &RouteTable) {
    let index = HopIndex::from_flat(rt.alloc(), table.flat()).expect(&rt, "an index");
    let addrs = [address(&rt, "10.1.2.3"), address(&rt, "11.0.0.1")];
    let mut hops = [None; 2];
    index.hops(&addrs, &mut hops);
    assert_eq!(rt; hops, [Some(2), None]);
}

/// The same hops of numbers.
fn indexed_numbers<R: Abort + Alloc<A = Global>>(rt: &R, table: &RouteTable) {
    let index = HopIndex::from_table(rt.alloc(), &table).expect(&rt, "an index");
    let addrs = [0x0a01_0203_u32, 0x0b00_0001];
    let mut hops = [None; 2];
    index.hops_of(&addrs, &mut hops);
    assert_eq!(rt; hops, [Some(2), None]);
    let mut numbers = [0_u64; 2];
    index.hops_of(&addrs, &mut numbers);
    assert_eq!(rt; numbers, [2, 1 << 32]);
}

/// The half, and then it isn't there.
fn taken_out(rt: &impl Abort, table: &mut RouteTable) {
    let half = net(rt, "10.0.0.0/9");
    assert_eq!(rt; table.del(&half, Hop::Number(2)), Some((Some(2), Some(1))));
    assert_eq!(rt; table.del(&half, Hop::Number(2)), None);
}

#[test]
fn two_routes(rt: HostRuntime) {
    let mut table = RouteTable::new(rt.alloc()).expect(&rt, "a table");
    added(&rt, &mut table);
    found(&rt, &table);
    listed(&rt, &table);
    counted(&rt, &table);
    walked(&rt, &table);
    routes_of_one(&rt, &table);
    of_one_hop(&rt, &table);
    flat_list(&rt, &table);
    indexed(&rt, &table);
    indexed_at_once(&rt, &table);
    indexed_numbers(&rt, &table);
    taken_out(&rt, &mut table);
}

/// The inner of two networks is added first, so that the outer one is no leaf.
fn added_leaves(rt: &impl Abort, table: &mut RouteTable) {
    let wide = net(rt, "10.0.0.0/8");
    let half = net(rt, "10.0.0.0/9");
    let added = table.add_is_leaf(half, Hop::Number(2), 100);
    assert_eq!(rt; added, Ok((None, Some(2), true)));
    let added = table.add_is_leaf(wide, Hop::Number(1), 100);
    assert_eq!(rt; added, Ok((None, Some(1), false)));
}

/// A network that was stored isn't new.
fn added_again(rt: &impl Abort, table: &mut RouteTable) {
    let half = net(rt, "10.0.0.0/9");
    let again = table.add_is_leaf(half, Hop::Number(3), 200);
    assert_eq!(rt; again, Ok((Some(2), Some(3), false)));
}

#[test]
fn leaves(rt: HostRuntime) {
    let mut table = RouteTable::new(rt.alloc()).expect(&rt, "a table");
    added_leaves(&rt, &mut table);
    added_again(&rt, &mut table);
}

/// Two routes in the place of three.
fn least_is_two(rt: &impl Abort, table: &RouteTable) {
    let whole = net(rt, "10.0.0.0/8");
    let quarter = net(rt, "10.0.0.0/10");
    let least = table.least().expect(&rt, "a least table");
    let fewest = [(whole, Hop::Number(1)), (quarter, Hop::Number(2))];
    assert_eq!(rt; least.as_slice(), fewest.as_slice());
}

#[test]
fn two_in_place_of_three(rt: HostRuntime) {
    let routes = "10.0.0.0/10 2, 10.64.0.0/10 1, 10.128.0.0/9 1";
    let table = table(&rt, rt.alloc(), routes);
    least_is_two(&rt, &table);
}

/// 10.0.0.0/8 to hop 1, and its first half to hop 2, in an empty table of one hop a network.
fn installed(rt: &impl Abort, table: &mut HopTable) {
    let wide = net(rt, "10.0.0.0/8");
    let half = net(rt, "10.0.0.0/9");
    let host = net(rt, "10.1.2.3/32");
    assert_eq!(rt; table.install(wide, Hop::Number(1)), Ok(()));
    assert_eq!(rt; table.install(half, Hop::Number(2)), Ok(()));
    assert!(rt; matches!(table.get(&host), Some((_, Hop::Number(2), 100))));
}

/// Hop 1 for the half too, by one operation.
fn updated(rt: &impl Abort, table: &mut HopTable) {
    let half = net(rt, "10.0.0.0/9");
    let changes = [(half, Hop::Number(1))];
    let updates = table.updates(&changes).expect(rt, "memory");
    assert_eq!(rt;
        updates.as_slice(),
        [Operation::Remove { net: half }].as_slice()
    );
    assert_eq!(rt; table.carry_out(updates.as_slice()), Ok(()));
    assert!(rt; matches!(table.get(&half), Some((_, Hop::Number(1), 100))));
}

/// Hop 3 for all of 10.0.0.0/8, and the first operation back.
fn overwritten(rt: &impl Abort, table: &mut HopTable) {
    let wide = net(rt, "10.0.0.0/8");
    let half = net(rt, "10.0.0.0/9");
    let list = table.least().expect(rt, "a least table");
    assert_eq!(rt; table.overwrite(wide, Hop::Number(3)), Ok(()));
    assert!(rt; matches!(table.get(&half), Some((_, Hop::Number(3), 100))));
    let first = table.between(list.as_slice()).next();
    let (net, hop) = (half, Hop::Number(2));
    assert_eq!(rt; first, Some(Operation::Install { net, hop }));
}

/// The half has this hop already.
fn painted(rt: &impl Abort, table: &mut HopTable) {
    let wide = net(rt, "10.0.0.0/8");
    let half = net(rt, "10.0.0.0/9");
    assert_eq!(rt; table.paint(half, Hop::Number(3)), Ok(()));
    assert_eq!(rt; table.get(&half), Some((wide, Hop::Number(3), 100)));
}

#[test]
fn two_hops(rt: HostRuntime) {
    let mut table = HopTable::new(rt.alloc()).expect(&rt, "a table");
    installed(&rt, &mut table);
    overwritten(&rt, &mut table);
    painted(&rt, &mut table);
}

#[test]
fn one_update(rt: HostRuntime) {
    let mut table = HopTable::new(rt.alloc()).expect(&rt, "a table");
    installed(&rt, &mut table);
    updated(&rt, &mut table);
}
