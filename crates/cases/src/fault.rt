// Why a line of a case is not as it should be.
use device::refusal::{InputRefusal, Refusal};
use order::code::Undecoded;
use std::alloc::AllocError;
use std::num::{ParseIntError, TryFromIntError};
use thiserror::Error;

#[derive(Debug, Drop, Error)]
pub enum Fault {
    #[error("but came {0}")]
    Differs(String),
    #[error("which cannot be read")]
    Unreadable,
    #[error("which cannot be read")]
    Digits(#[from] ParseIntError),
    #[error("which cannot be read")]
    Range(#[from] TryFromIntError),
    #[error(transparent)]
    Input(#[from] InputRefusal),
    #[error("which cannot be read")]
    Device(#[from] Refusal),
    #[error("which cannot be read")]
    Order(#[from] Undecoded),
    #[error(transparent)]
    Memory(#[from(alloc)] AllocError),
}
