//! Short lists without room, for which each call allocates.
use crate::fault::{Fault, made};
use crate::show::{answer, begin, end, given, handed_back, line, lines};
use crate::subject::Subject;
use short_vec::ShortVec;
use std::alloc::{AllocError, AllocFailed, Global};

/// The calls of a full list.
#[derive(Clone, Copy)]
pub enum ShortListCall {
    Push,
    Insert,
}

/// Four numbers, and no room for more.
impl Subject for ShortVec<u32> {
    type Call = ShortListCall;

    fn empty(alloc: Global) -> Result<ShortVec<u32>, Fault> {
        Ok(ShortVec::new(alloc))
    }

    fn fill(&mut self) -> Result<(), Fault> {
        made(self.reserve_exact(4))?;
        for number in 0..4 {
            made(self.push(number))?;
        }
        Ok(())
    }

    /// The numbers, and how many there is room for.
    fn show(&self, rt: &HostRuntime) {
        lines(rt, "", self.as_slice().iter());
        line(rt, &self.capacity());
    }

    fn call(&mut self, rt: &HostRuntime, call: ShortListCall) -> Result<(), Fault> {
        given(rt, 9);
        begin(rt);
        let outcome = match call {
            ShortListCall::Push => self.push(9),
            ShortListCall::Insert => self.insert(0, 9),
        };
        end(rt);
        match outcome {
            Ok(()) => answer(rt, &"stored"),
            Err(AllocFailed { value, .. }) => handed_back(rt, &AllocError, value),
        }
        Ok(())
    }
}
