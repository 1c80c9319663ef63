//! Ranges of addresses, as iterators from both ends, and the arithmetic on numbers that both families share.
ghost use Rattle.std.specs.Prelude.{◌≡◌, ◌+◌, ◌<◌, ◌≤◌, ◌^◌, max, length, slice_get, reverse, IfSome};
ghost use Rattle.std.specs.Iterator.SizeHint.{IsExactHint};
ghost use Rattle.ipnet_addr.specs.Ranges.{numbers, after_front, after_back, times};

pub use crate::addr_range::{AddrRange, Ipv4AddrRange, Ipv6AddrRange};
pub use crate::ip_range::IpAddrRange;

/// The result of a call, and the ends of the range after it.
#[derive(Clone, Copy)]
pub(crate) struct Step {
    pub(crate) answer: Option<u128>,
    pub(crate) start: u128,
    pub(crate) end: u128,
}

/// `nth(n)` of the range from `start` to `end`.
pub(crate) fn nth_number(start: u128, end: u128, n: u128) -> Step
    ensures answer { result.answer ≡ slice_get (numbers (record { start = start; end = end })) n }
    ensures ends { record { start = result.start; end = result.end } ≡ times (n + 1) after_front (record { start = start; end = end }) }
    ensures start_fits { result.start ≤ max (max start end) 1 }
    ensures end_fits { result.end ≤ end }
    ensures answer_fits { IfSome result.answer (λ x. x ≤ end) }
{
    if start > end {
        return Step {
            answer: None,
            start,
            end,
        };
    }
    let room = end - start;
    if n < room {
        return Step {
            answer: Some(start + n),
            start: start + n + 1,
            end,
        };
    }
    Step {
        answer: if n == room { Some(end) } else { None },
        start: 1,
        end: 0,
    }
}

/// `nth_back(n)` of the range from `start` to `end`.
pub(crate) fn nth_back_number(start: u128, end: u128, n: u128) -> Step
    ensures answer { result.answer ≡ slice_get (reverse (numbers (record { start = start; end = end }))) n }
    ensures ends { record { start = result.start; end = result.end } ≡ times (n + 1) after_back (record { start = start; end = end }) }
    ensures start_fits { result.start ≤ max start 1 }
    ensures end_fits { result.end ≤ end }
    ensures answer_fits { IfSome result.answer (λ x. x ≤ end) }
{
    if start > end {
        return Step {
            answer: None,
            start,
            end,
        };
    }
    let room = end - start;
    if n < room {
        return Step {
            answer: Some(end - n),
            start,
            end: end - n - 1,
        };
    }
    Step {
        answer: if n == room { Some(start) } else { None },
        start: 1,
        end: 0,
    }
}

/// The number of numbers in the range.
pub(crate) fn count_numbers(start: u128, end: u128) -> usize
    requires { length (numbers (record { start = start; end = end })) < 2 ^ 64 }
    ensures { result ≡ length (numbers (record { start = start; end = end })) }
{
    if start > end {
        0
    } else {
        (end - start) as usize + 1
    }
}

/// The number of numbers in the range, as `size_hint` returns it.
pub(crate) fn hint_numbers(start: u128, end: u128) -> (usize, Option<usize>)
    ensures { IsExactHint result (length (numbers (record { start = start; end = end }))) }
{
    if start > end {
        return (0, Some(0));
    }
    let room = end - start;
    if room < usize::MAX as u128 {
        (room as usize + 1, Some(room as usize + 1))
    } else {
        (usize::MAX, None)
    }
}
