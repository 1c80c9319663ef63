//! The content of an open handle of an index.
ghost use Rattle.std.specs.Prelude.{◌≡◌, IfErr, IfOk};
ghost use Rattle.routes_c.specs.Contents.{hops_of_index};

use hop_index::HopIndex;
use std::alloc::Global;
use std::sync::Arc;

/// An index. Several handles may share it, on any threads, and the last one frees it.
#[derive(Drop)]
pub struct IndexSession {
    pub(crate) index: Arc<HopIndex>,
}

impl IndexSession {
    /// Makes the content for an index.
    pub(crate) fn new(alloc: Global, index: HopIndex) -> Result<IndexSession, u32>
        ensures index { IfOk result (λ s. hops_of_index s ≡ index) }
        ensures memory { IfErr result (λ e. e ≡ 2) }
    {
        match Arc::new(alloc, index) {
            Ok(index) => Ok(IndexSession { index }),
            Err(_) => Err(2),
        }
    }

    /// Makes the content for another handle of the same index.
    pub(crate) fn share(&self) -> Result<IndexSession, u32>
        ensures index { IfOk result (λ s. hops_of_index s ≡ hops_of_index self.now) }
        ensures memory { IfErr result (λ e. e ≡ 2) }
    {
        match Arc::try_clone(&self.index) {
            Ok(index) => Ok(IndexSession { index }),
            Err(_) => Err(2),
        }
    }
}
