//! The fewest networks that cover the same addresses as some others.
ghost use Rattle.std.specs.Prelude.{◌≡◌, ◌++◌, map, All, IfOk, OnOk};
ghost use Rattle.ipnet_blocks.specs.Aggregated.{AreAggregated, IsAggregated};
ghost use Rattle.ipnet_blocks.specs.Networks.{IsTruncated};
ghost use Rattle.ipnet.specs.IpAggregated.{only_ipv4, only_ipv6};
ghost use Rattle.ipnet.specs.IpNets.{block, family, parts};

use crate::ip_net::IpNet;
use crate::networks::{Ipv4Net, Ipv6Net, Net};
use crate::subnets::Subnets;
use ipnet_addr::number::AddressInt;
use ipnet_blocks::aggregate::{Span, Spanned, aggregated};
use std::alloc::{AllocError, Global};

impl<N: AddressInt> Spanned for Net<N> {
    ghost family = { N.family };

    ghost parts = { λ n. n };

    fn span(&self) -> Span {
        Span {
            first: N::of_addr(self.network()).to_bits(),
            last: N::of_addr(self.broadcast()).to_bits(),
        }
    }

    fn push_blocks(blocks: &mut Vec<Net<N>>, span: &Span) -> Result<(), AllocError> {
        let first = N::from_bits(span.first).to_addr();
        let last = N::from_bits(span.last).to_addr();
        for block in Subnets::<N>::new(first, last, 0) {
            blocks.push(block)?;
        }
        Ok(())
    }
}

impl<N: AddressInt> Net<N> {
    /// Returns the fewest networks that cover the same addresses, in ascending order and without host bits. Takes time n log n.
    ///
    /// # Errors
    /// - `AllocError`: if an allocation fails.
    ///
    /// # Examples
    /// For `halves`, 10.0.0.5/25 and 10.0.0.128/25; `v4` parses a text:
    ///
    /// ```rust
    /// let blocks = Ipv4Net::aggregate(alloc, halves).expect(rt, "memory");
    /// assert_eq!(rt; blocks.as_slice(), [v4(rt, "10.0.0.0/24")].as_slice());
    /// ```
    pub fn aggregate(alloc: Global, networks: &Vec<Net<N>>) -> Result<Vec<Net<N>>, AllocError>
        ensures { IfOk result (λ v. AreAggregated N.family networks.now.items v.items) }
    {
        aggregated(alloc, networks)
    }
}

impl IpNet {
    /// Returns the fewest networks that cover the same addresses, in ascending order, IPv4 first, without host bits. Takes time n log n.
    ///
    /// # Errors
    /// - `AllocError`: if an allocation fails.
    ///
    /// # Examples
    /// For `networks`, `::/1`, `8000::/1` and 10.0.0.1/8; `any` parses a text:
    ///
    /// ```rust
    /// let blocks = IpNet::aggregate(alloc, networks).expect(rt, "memory");
    /// assert_eq!(rt;
    ///     blocks.as_slice(),
    ///     [any(rt, "10.0.0.0/8"), any(rt, "::/0")].as_slice()
    /// );
    /// ```
    pub fn aggregate(alloc: Global, networks: &Vec<IpNet>) -> Result<Vec<IpNet>, AllocError>
        ensures blocks { IfOk result (λ v. IsAggregated (map block networks.now.items) (map block v.items)) }
        ensures truncated { IfOk result (λ v. All (λ n. IsTruncated (family n) (parts n)) v.items) }
    {
        let (ipv4, ipv6) = by_family(alloc, networks)?;
        let ipv4 = Ipv4Net::aggregate(alloc, &ipv4)?;
        let ipv6 = Ipv6Net::aggregate(alloc, &ipv6)?;
        let mut blocks = Vec::new(alloc);
        push_ipv4(&mut blocks, &ipv4)?;
        push_ipv6(&mut blocks, &ipv6)?;
        Ok(blocks)
    }
}

/// Splits the networks by family.
fn by_family(
    alloc: Global,
    networks: &Vec<IpNet>,
) -> Result<(Vec<Ipv4Net>, Vec<Ipv6Net>), AllocError>
    ensures ipv4 { IfOk result (λ p. p.0.items ≡ only_ipv4 networks.now.items) }
    ensures ipv6 { IfOk result (λ p. p.1.items ≡ only_ipv6 networks.now.items) }
{
    let mut ipv4 = Vec::new(alloc);
    let mut ipv6 = Vec::new(alloc);
    for network in networks {
        match network {
            IpNet::V4(network) => ipv4.push(*network)?,
            IpNet::V6(network) => ipv6.push(*network)?,
        }
    }
    Ok((ipv4, ipv6))
}

fn push_ipv4(blocks: &mut Vec<IpNet>, networks: &Vec<Ipv4Net>) -> Result<(), AllocError>
    ensures { OnOk result (blocks.new.items ≡ blocks.old.items ++ map IpNet.V4 networks.now.items) }
{
    for network in networks {
        blocks.push(IpNet::V4(*network))?;
    }
    Ok(())
}

fn push_ipv6(blocks: &mut Vec<IpNet>, networks: &Vec<Ipv6Net>) -> Result<(), AllocError>
    ensures { OnOk result (blocks.new.items ≡ blocks.old.items ++ map IpNet.V6 networks.now.items) }
{
    for network in networks {
        blocks.push(IpNet::V6(*network))?;
    }
    Ok(())
}
