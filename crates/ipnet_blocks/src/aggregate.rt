//! The fewest blocks that cover the same addresses as some networks of one family. Networks become spans of numbers, which are sorted,
//! joined and cut into blocks. For the crates above; not part of the promise.
ghost use Rattle.std.specs.Prelude.{◌≡◌, ◌^◌, ◌<◌, ◌++◌, map, All, IfOk, OnOk};
ghost use Rattle.std.specs.List.Sorted.{IsPermutation, IsNonDecreasingBy};
ghost use Rattle.std.specs.List.{flat_map};
ghost use Rattle.ipnet_addr.specs.Addresses.{Family, width};
ghost use Rattle.ipnet_blocks.specs.Aggregated.{AreAggregated};
ghost use Rattle.ipnet_blocks.specs.Cuts.{subnets};
ghost use Rattle.ipnet_blocks.specs.Networks.{Network};
ghost use Rattle.ipnet_blocks.specs.InnerSpans.{HasNumber, AreJoined, span_of, limits_of};

use std::alloc::{AllocError, Global};

/// The numbers from `first` to `last`, both included.
#[derive(Clone, Copy)]
pub struct Span {
    pub first: u128,
    pub last: u128,
}

/// The spans, sorted by their first numbers.
fn sorted(mut spans: Vec<Span>) -> Vec<Span>
    ensures permutation { IsPermutation spans.items result.items }
    ensures order { IsNonDecreasingBy (λ s. s.first) result.items }
{
    spans.sort_unstable_by_key(|span| span.first);
    spans
}

/// Joins spans that overlap or touch; returns the joined spans in ascending order.
fn joined(alloc: Global, spans: Vec<Span>) -> Result<Vec<Span>, AllocError>
    requires { All HasNumber spans.items }
    ensures { IfOk result (λ v. AreJoined spans.items v.items) }
{
    let spans = sorted(spans);
    let mut joined = Vec::new(alloc);
    let [head, rest @ ..] = spans.as_slice() else {
        return Ok(joined);
    };
    let mut open = *head;
    for span in rest {
        if span.first.saturating_sub(1) <= open.last {
            open.last = open.last.max(span.last);
        } else {
            joined.push(open)?;
            open = *span;
        }
    }
    joined.push(open)?;
    Ok(joined)
}

/// What `aggregated` needs from a network type of one family.
pub trait Spanned: Copy {
    /// The family of the networks.
    ghost family: { Family };

    /// The number of a network's address, and its length.
    ghost parts: { Self → Network };

    /// Returns the numbers of the network's addresses.
    fn span(&self) -> Span
        ensures span { result ≡ span_of family (parts self.now) }
        ensures fits { result.last < 2 ^ width family };

    /// Appends the largest blocks of the span, in ascending order.
    ///
    /// # Errors
    /// `AllocError` if an allocation fails. `blocks` may then hold some of the new blocks.
    fn push_blocks(blocks: &mut Vec<Self>, span: &Span) -> Result<(), AllocError>
        requires some { HasNumber span.now }
        requires fits { span.now.last < 2 ^ width family }
        ensures { OnOk result (map parts blocks.new.items ≡ map parts blocks.old.items ++ subnets family (limits_of span.now)) };
}

/// The spans of the networks, in the order of the networks.
fn spans_of<N: Spanned>(alloc: Global, networks: &Vec<N>) -> Result<Vec<Span>, AllocError>
    ensures spans { IfOk result (λ v. v.items ≡ map (λ n. span_of N.family (N.parts n)) networks.now.items) }
    ensures fit { IfOk result (λ v. All (λ s. s.last < 2 ^ width N.family) v.items) }
{
    let mut spans = Vec::new(alloc);
    for network in networks {
        spans.push(network.span())?;
    }
    Ok(spans)
}

/// The largest blocks of each span, span by span.
fn blocks_of<N: Spanned>(alloc: Global, spans: &Vec<Span>) -> Result<Vec<N>, AllocError>
    requires some { All HasNumber spans.now.items }
    requires fit { All (λ s. s.last < 2 ^ width N.family) spans.now.items }
    ensures { IfOk result (λ v. map N.parts v.items ≡ flat_map (λ s. subnets N.family (limits_of s)) spans.now.items) }
{
    let mut blocks = Vec::new(alloc);
    for span in spans {
        N::push_blocks(&mut blocks, span)?;
    }
    Ok(blocks)
}

/// Returns the fewest networks that cover the same addresses, in ascending order and without host bits. Takes time n log n.
///
/// # Errors
/// `AllocError` if an allocation fails.
pub fn aggregated<N: Spanned>(alloc: Global, networks: &Vec<N>) -> Result<Vec<N>, AllocError>
    ensures { IfOk result (λ v. AreAggregated N.family (map N.parts networks.now.items) (map N.parts v.items)) }
{
    let spans = joined(alloc, spans_of(alloc, networks)?)?;
    blocks_of(alloc, &spans)
}
