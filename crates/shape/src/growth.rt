//! How a list grows. There are very many lists and most stay short, so a list gets little more room than it needs.
ghost use Rattle.std.specs.Prelude.{◌≡◌, ◌+◌, ◌*◌, ◌/◌, ◌^◌, ◌<◌, ◌≤◌, [], length, max, insert, is_ok, if◌then◌else◌, IsOk, IfOk, IfErr, OnOk};
ghost use Rattle.short_vec.specs.Lists.{short_items, short_len, short_capacity};
ghost use Rattle.shape.specs.InnerGrowth.{block_size};

use short_vec::ShortVec;
use std::alloc::{AllocError, AllocFailed, Global};
use std::mem;

/// The least size of items that are too large for the bytes that an allocator adds. It stands for all larger sizes: children are nodes.
pub(crate) const LARGE: usize = 16;

/// Lists of this many items, and longer ones, don't use the bytes that an allocator adds.
const MANY: usize = 0x8000_0000;

/// Returns an empty list with room for at least `count` items of `size` bytes.
///
/// # Errors
/// `AllocError` if the allocation fails.
pub(crate) fn empty_list<X>(
    alloc: Global,
    count: usize,
    size: usize,
) -> Result<ShortVec<X>, AllocError>
    requires { 0 < count }
    ensures items { IfOk result (λ list. short_items list ≡ []) }
    ensures room { IfOk result (λ list. short_len list + count ≤ short_capacity list) }
    ensures memory { IfOk result (λ list. short_capacity list * size ≤ block_size (count * size)) }
{
    ShortVec::with_capacity(alloc, room_for(0, count, size))
}

/// Makes sure that there is room for one more item of `size` bytes: a full list gets room for at least `more`.
///
/// # Errors
/// `AllocError` if the list is full and the allocation fails.
pub(crate) fn reserve<X>(
    items: &mut ShortVec<X>,
    more: usize,
    size: usize,
) -> Result<(), AllocError>
    requires { 0 < more }
    ensures items { short_items items.new ≡ short_items items.old }
    ensures ok { OnOk result (short_len items.new < short_capacity items.new) }
    ensures more { OnOk result (short_capacity items.old ≤ short_len items.old → short_len items.new + max more (short_len items.old / 4) ≤ short_capacity items.new) }
    ensures memory { OnOk result (short_capacity items.old ≤ short_len items.old → short_capacity items.new * size ≤ block_size ((short_len items.old + max more (short_len items.old / 4)) * size)) }
    ensures succeeds { short_len items.old < short_capacity items.old → IsOk result }
{
    let len = items.len();
    if len < items.capacity() {
        return Ok(());
    }
    items.reserve_exact(room_for(len, more, size))
}

/// Inserts `item` at the index `at`, and moves the later items up.
///
/// # Errors
/// `item` if the list is full and the allocation fails; the items are unchanged.
pub(crate) fn insert_in<X>(items: &mut ShortVec<X>, at: usize, item: X) -> Result<(), X>
    requires { at ≤ length (short_items items.old) }
    ensures items { short_items items.new ≡ (if is_ok result then insert (short_items items.old) at item else short_items items.old) }
    ensures value_returned { IfErr result (λ x. x ≡ item) }
    ensures succeeds { short_len items.old < short_capacity items.old → IsOk result }
{
    if reserve(items, 1, mem::size_of_val(&item)).is_err() {
        return Err(item);
    }
    match items.insert(at, item) {
        Ok(()) => Ok(()),
        Err(AllocFailed { value, .. }) => Err(value),
    }
}

/// Returns the number of items of `size` bytes to make room for in a full list of `len` items that needs room for `more`.
///
/// It is at least a quarter of `len`, and as many as fit into the memory that the allocator hands out anyway.
fn room_for(len: usize, more: usize, size: usize) -> usize
    requires { 0 < more }
    ensures least { max more (len / 4) ≤ result }
    ensures memory { (len + result) * size ≤ block_size ((len + max more (len / 4)) * size) }
    ensures full { 0 < size → len + result < 2 ^ 31 → block_size ((len + max more (len / 4)) * size) < (len + result) * size + size }
{
    let least = more.max(len / 4);
    if size == 0 || size >= LARGE || len >= MANY || least >= MANY {
        return least;
    }
    filled(len + least, size) - len
}

/// Returns the number of items of `size` bytes that fit into the memory that the allocator hands out for `count` items.
fn filled(count: usize, size: usize) -> usize
    requires count { count < 2 ^ 32 }
    requires size { (0 < size) × (size < 16) }
    ensures least { count ≤ result }
    ensures memory { result * size ≤ block_size (count * size) }
    ensures full { block_size (count * size) < result * size + size }
{
    let bytes = count * size;
    let block = (bytes + 7) / 16 * 16 + 8;
    block.max(24) / size
}
