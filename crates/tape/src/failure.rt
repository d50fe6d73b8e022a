// Why no copy was made, in whole sentences for a person.
use device::refusal::{InputRefusal, Refusal};
use std::alloc::AllocError;
use std::io;
use thiserror::Error;

#[derive(Debug, Drop, Error)]
pub(crate) enum Failure {
    #[error("usage: tape FILE COPY, where FILE holds a frame in each byte and COPY is written anew")]
    Usage,
    #[error("cannot read {path}: {reason}; name a file of frames")]
    Unreadable { path: String, reason: io::Error },
    #[error("the drum gave back other symbols: the copy is not written")]
    OtherSymbols,
    #[error(transparent)]
    Refused(#[from] Refusal),
    #[error(transparent)]
    Unfit(#[from] InputRefusal),
    #[error(transparent)]
    Io(#[from] io::Error),
    #[error(transparent)]
    Memory(#[from(alloc)] AllocError),
}
