//! Comparisons for the tests, and the networks that texts spell.
use ipnet::{IpNet, Ipv4Net, Ipv6Net};
use std::fmt::Debug;
use std::process::Abort;
use std::str::FromStr;

/// Checks that `found` is `wanted`. A proof about a call of this function takes a tenth of the time of a proof about `assert_eq!`.
pub(crate) fn is_equal<T: Copy + PartialEq + Debug>(rt: &impl Abort, found: T, wanted: T) {
    assert_eq!(rt; found, wanted);
}

/// The same check for a row of a table. If it fails, the message contains the row.
pub(crate) fn row_is<T: Copy + PartialEq + Debug>(rt: &impl Abort, row: &str, found: T, wanted: T) {
    assert_eq!(rt; found, wanted, "{row}");
}

pub(crate) fn v4(rt: &impl Abort, text: &str) -> Ipv4Net {
    Ipv4Net::from_str(text).expect(rt, text)
}

pub(crate) fn v6(rt: &impl Abort, text: &str) -> Ipv6Net {
    Ipv6Net::from_str(text).expect(rt, text)
}

pub(crate) fn any(rt: &impl Abort, text: &str) -> IpNet {
    IpNet::from_str(text).expect(rt, text)
}
