//! The largest block at the start of a range of numbers, and the rest of the range. For the crates above; not part of the promise.
ghost use Rattle.std.specs.Prelude.{◌≡◌, ◌-◌, ◌^◌, ◌<◌, ◌≤◌};
ghost use Rattle.ipnet_blocks.specs.Cuts.{most_free, first_free, after_first};

use ipnet_addr::bits::ones;

/// The number of free bits of the largest block that begins at `start` and ends no later than `end`, at most `most`.
fn free_bits(start: u128, end: u128, most: u8) -> u8
    requires order { start ≤ end }
    requires in_width { most ≤ 128 }
    ensures greatest { result ≡ most_free most start end }
    ensures bounded { result ≤ most }
{
    let by_room = match (end - start).checked_add(1) {
        Some(count) => 127 - count.leading_zeros(),
        None => 128,
    };
    start.trailing_zeros().min(by_room).min(most as u32) as u8
}

/// The length of a block, and the ends of the range that is left after it.
#[derive(Clone, Copy)]
pub struct Cut {
    pub len: u8,
    pub start: u128,
    pub end: u128,
}

/// Cuts off the first block of a range; an address has `width` bits, and the block's length is at least `shortest`.
pub fn first_cut(width: u8, start: u128, end: u128, shortest: u8) -> Cut
    requires order { start ≤ end }
    requires end_fits { end < 2 ^ width }
    requires in_width { shortest ≤ width }
    requires wide { width ≤ 128 }

    // The length is that of the largest block at `start` that ends by `end` and has at least the length `shortest`.
    ensures len { result.len ≡ width - first_free width (record { start = start; end = end; shortest = shortest }) }
    ensures len_fits { result.len ≤ width }

    // Start and end bound the rest of the range, which may be empty, and have at most `width` bits.
    ensures limits { record { start = result.start; end = result.end; shortest = shortest } ≡ after_first width (record { start = start; end = end; shortest = shortest }) }
    ensures start_fits { result.start < 2 ^ width }
    ensures next_end_fits { result.end ≤ end }
{
    let free = free_bits(start, end, width - shortest);
    let last = start + ones(free);
    let greatest = ones(width);
    if last == greatest {
        return Cut {
            len: width - free,
            start: greatest,
            end: 0,
        };
    }
    Cut {
        len: width - free,
        start: last + 1,
        end: if start == end { 0 } else { end },
    }
}
