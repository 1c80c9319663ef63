//! Several routes per network: the best one, and the size of the list.
use crate::tests::tables::row_is;
use route_choices::{Choices, TooMany};
use route_table::{AddRefused, Hop, Refused};
use std::alloc::Global;
use std::fmt::Display;
use std::process::Abort;

#[test]
fn the_next_takes_over(rt: HostRuntime) {
    let mut choices: Choices<8> = Choices::one(Hop::Number(5), 100);
    assert_eq!(rt; choices.add(Hop::Number(3), 100), Ok(()));
    assert_eq!(rt; choices.add(Hop::Drop, 200), Ok(()));
    assert_eq!(rt; choices.best(), (Hop::Drop, 200));
    assert!(rt; choices.remove(Hop::Drop));
    assert_eq!(rt; choices.best(), (Hop::Number(3), 100));
    for number in 6..12 {
        assert_eq!(rt; choices.add(Hop::Number(number), 100), Ok(()));
    }
    assert_eq!(rt; choices.add(Hop::Drop, 200), Err(TooMany));
}

#[test]
fn best_first(rt: HostRuntime) {
    let mut choices: Choices<8> = Choices::one(Hop::Number(5), 100);
    assert_eq!(rt; choices.add(Hop::Number(3), 100), Ok(()));
    let mut all = choices.all();
    assert_eq!(rt; all.next(), Some((Hop::Number(3), 100)));
    assert_eq!(rt; all.next(), Some((Hop::Number(5), 100)));
    assert_eq!(rt; all.next(), None);
}

#[test]
fn the_only_hop(rt: HostRuntime) {
    let mut choices: Choices<8> = Choices::one(Hop::Number(5), 100);
    assert!(rt; choices.has_no_other(Hop::Number(5)));
    assert!(rt; !choices.has_no_other(Hop::Drop));
    assert_eq!(rt; choices.add(Hop::Drop, 200), Ok(()));
    assert!(rt; !choices.has_no_other(Hop::Number(5)));
}

#[test]
fn numbers_of_hops(rt: HostRuntime) {
    assert_eq!(rt; Hop::Number(7).number(), Some(7));
    assert_eq!(rt; Hop::Drop.number(), None);
}

/// A list takes seven bytes per choice, and nothing more.
#[test]
fn bytes_of_choices(rt: HostRuntime) {
    row_is(&rt, "eight", std::mem::size_of::<Choices<8>>(), 56);
    row_is(&rt, "one", std::mem::size_of::<Choices<1>>(), 7);
    row_is(&rt, "default", Hop::default(), Hop::Drop);
}

/// The value prints so.
fn prints<T: Copy + Display>(rt: &impl Abort, alloc: Global, value: T, wanted: &'static str) {
    let text = format!(in alloc; "{value}").expect(rt, "memory");
    row_is(rt, wanted, text.as_str(), wanted);
}

#[test]
fn texts_of_refusals(rt: HostRuntime) {
    prints(&rt, rt.alloc(), TooMany, "eight other hops are stored");
    let full = "eight other hops are stored at the network";
    prints(&rt, rt.alloc(), AddRefused::TooMany, full);
    prints(
        &rt,
        rt.alloc(),
        AddRefused::Store(Refused::Memory),
        "out of memory",
    );
}
