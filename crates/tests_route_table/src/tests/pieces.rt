//! Least tables of pieces with known hops, whose prefixes are no networks.
use crate::tests::tables::row_is;
use least_table::Planner;
use std::test::Fail;

#[test]
fn a_route_and_one_inside(rt: HostRuntime) -> Result<(), Fail> {
    let mut plan = Planner::new(rt.alloc());
    plan.push(&(0x0a00_0000_u32, 10_u8), 2)?;
    plan.push(&(0x0a40_0000_u32, 10_u8), 1)?;
    plan.push(&(0x0a80_0000_u32, 9_u8), 1)?;
    let mut routes = plan.into_routes()?;
    assert_eq!(rt; routes.next(), Some(((0x0a00_0000_u32, 8_u8), Some(1_u32))));
    assert_eq!(rt; routes.next(), Some(((0x0a00_0000, 10), Some(2))));
    assert_eq!(rt; routes.next(), None);
    Ok(())
}

#[test]
fn no_pieces(rt: HostRuntime) -> Result<(), Fail> {
    let plan: Planner<(u128, u8)> = Planner::new(rt.alloc());
    let mut routes = plan.into_routes()?;
    row_is(&rt, "none", routes.next(), None);
    Ok(())
}
