//! The call at whose end a stream is stuck.

use stamp_core::Reply;
use stamp_watch::EndedCall;

/// The call that ends where a stream is stuck, and which replies it could have had, as far as is told.
#[derive(Drop)]
pub(crate) struct StuckEnd {
    pub(crate) ended: EndedCall,
    /// Nothing where the call is given stamps or a content or was withdrawn, a call before began late, or with one of
    /// the replies too many positions are possible.
    pub(crate) replies: Option<Vec<Reply>>,
}
