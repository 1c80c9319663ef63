//! IP networks: sets of addresses with a common prefix, as text and as values.
//!
//! In the examples of calls, `rt` is the program's runtime, and `is_equal` checks that two values are equal. `v4`, `v6` and `any`
//! parse the text of a network.
#![tactic(auto)]

pub use contains::Contains;
pub use ip_net::IpNet;
pub use ipnet_addr::ipext::{IpAdd, IpBitAnd, IpBitOr, IpStep, IpSub};
pub use ipnet_addr::mask::{
    PrefixLenError, ip_mask_to_prefix, ipv4_mask_to_prefix, ipv6_mask_to_prefix,
};
pub use ipnet_addr::ranges::{AddrRange, IpAddrRange, Ipv4AddrRange, Ipv6AddrRange};
pub use networks::{Ipv4Net, Ipv6Net, Net};
pub use std::net::{IpAddr, Ipv4Addr, Ipv6Addr};
pub use subnets::{IpSubnets, Ipv4Subnets, Ipv6Subnets, Subnets};
pub use text::AddrParseError;

mod aggregate;
mod contains;
mod ip_net;
mod ipv4;
mod ipv6;
pub mod laws;
mod networks;
mod octets;
mod subnets;
mod text;
mod value;
