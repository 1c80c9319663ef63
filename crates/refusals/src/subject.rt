//! The common part of the scenarios of maps, sets and tables.
use crate::fault::Fault;
use crate::show::{begin, end};
use std::alloc::Global;

/// The value that scenarios use: it is filled, and shown before and after the call.
pub trait Subject: Sized + Drop {
    /// The calls of its scenarios.
    type Call: Copy;

    /// Makes an empty value.
    fn empty(alloc: Global) -> Result<Self, Fault>;

    /// Fills the empty value.
    fn fill(&mut self) -> Result<(), Fault>;

    /// Shows all of its contents.
    fn show(&self, rt: &HostRuntime);

    /// Makes the call between the marks, and shows its result.
    fn call(&mut self, rt: &HostRuntime, call: Self::Call) -> Result<(), Fault>;
}

/// The call that makes an empty value.
pub fn make<S: Subject>(rt: &HostRuntime) -> Result<(), Fault> {
    begin(rt);
    let subject = S::empty(rt.alloc())?;
    end(rt);
    subject.show(rt);
    Ok(())
}

/// Makes a value, fills it and shows it.
pub fn filled<S: Subject>(rt: &HostRuntime) -> Result<S, Fault> {
    let mut subject = S::empty(rt.alloc())?;
    subject.fill()?;
    subject.show(rt);
    Ok(subject)
}

/// The call on a filled value.
pub fn run_over<S: Subject>(rt: &HostRuntime, call: S::Call) -> Result<(), Fault> {
    let mut subject: S = filled(rt)?;
    subject.call(rt, call)?;
    subject.show(rt);
    Ok(())
}
