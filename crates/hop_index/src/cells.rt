//! Cells: a finer division of the addresses where more ranges end.
ghost use Rattle.std.specs.Prelude.{◌≡◌, ◌+◌, ◌*◌, ◌/◌, ◌%◌, ◌-◌, ◌^◌, ◌<◌, ◌≤◌, IfOk, length};
ghost use Rattle.hop_index.specs.InnerRanges.{AreTops, cell_of};

use crate::ranges::Ranges;
use crate::stored::Stored;
use std::alloc::{AllocError, Global};

/// The number of chunks.
const CHUNKS: usize = 65_536;

/// The index of the first range from `place` on that ends after the chunk.
fn after_chunk<N: Stored>(ranges: &Ranges<N>, mut place: usize, chunk: u64) -> usize
    requires { place ≤ length ranges.now }
    ensures least { place ≤ result }
    ensures most { result ≤ length ranges.now }
{
    while place < ranges.len() && ranges.head(place) >> 48 <= chunk {
        place += 1;
    }
    place
}

/// The number of cells of a chunk in which `count` ranges end: the least power of two from five quarters of it on. So a cell mostly has
/// the addresses of a network.
fn cells_of(count: usize) -> usize
    requires { count ≤ 2 ^ 62 }
    ensures some { 0 < result }
    ensures few { result ≤ 3 * count + 1 }
{
    (count + count / 4).max(1).next_power_of_two()
}

/// The first cell of each chunk, and the number of all cells.
pub(crate) fn tops_of<N: Stored>(alloc: Global, ranges: &Ranges<N>) -> Result<Vec<u32>, AllocError>
    requires { length ranges.now < 1073741824 }
    ensures { IfOk result (λ tops. AreTops tops.items) }
{
    let mut tops = Vec::with_capacity(alloc, CHUNKS + 1)?;
    let mut first = 0;
    let mut place = 0;
    for chunk in 0..CHUNKS + 1 {
        tops.push(first as u32)?;
        let next = after_chunk(ranges, place, chunk as u64);
        first += cells_of(next - place);
        place = next;
    }
    Ok(tops)
}

/// The cell of a number, by its first 64 bits.
#[inline]
pub(crate) fn cell_at(tops: &[u32], head: u64) -> u32
    requires { AreTops tops.now }
    ensures { result ≡ cell_of tops.now head }
{
    let chunk = (head >> 48) as usize;
    let first = u64::from(tops[chunk]);
    let cells = u64::from(tops[chunk + 1]) - first;
    (first + ((head % (1 << 48) >> 16) * cells >> 32)) as u32
}
