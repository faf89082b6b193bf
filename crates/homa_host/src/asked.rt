// What a host asks, where its service finds no memory.
use homa_plain::CallId;
use std::alloc::AllocError;

/// A call whose request is whole, and whose service found no memory for an answer.
#[derive(Clone, Copy, Debug, PartialEq, Eq)]
pub struct Asked {
    /// The call.
    pub id: CallId,
    /// The number of the service.
    pub number: u8,
}

impl From<Asked> for AllocError {
    fn from(_asked: Asked) -> AllocError {
        AllocError
    }
}
