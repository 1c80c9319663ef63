//! Comparisons for the tests. If a row of a table fails, the message contains the row.
use ipnet::IpNet;
use std::alloc::Global;
use std::fmt::{Debug, Display};
use std::process::Abort;
use std::str::{FromStr, from_utf8};

/// Checks that `found` is `wanted`. A proof about a call of this function takes a tenth of the time of a proof about `assert_eq!`.
pub(crate) fn row_is<R: Copy + Debug, T: Copy + PartialEq + Debug>(
    rt: &impl Abort,
    row: R,
    found: T,
    wanted: T,
) {
    assert_eq!(rt; found, wanted, "{row:?}");
}

/// Checks that the bytes are the text `wanted`.
pub(crate) fn text_is<R: Copy + Debug>(rt: &impl Abort, row: R, found: &[u8], wanted: &str) {
    assert_eq!(rt; from_utf8(found).unwrap_or("no text"), wanted, "{row:?}");
}

/// Checks that the value is printed as `wanted`.
pub(crate) fn prints<T: Copy + Display>(rt: &impl Abort, alloc: Global, value: T, wanted: &str) {
    let text = format!(in alloc; "{value}").expect(rt, "memory");
    assert_eq!(rt; text.as_str(), wanted);
}

/// The network that the text spells.
pub(crate) fn net(rt: &impl Abort, text: &str) -> IpNet {
    IpNet::from_str(text).expect(rt, text)
}
