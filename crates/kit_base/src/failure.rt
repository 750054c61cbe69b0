// Why a call gives nothing.
ghost use Rattle.std.specs.Prelude.{◌≡◌};
ghost use Rattle.kit_base.specs.declared.failure.Failure.TheVariants as failures;

use crate::name::Memory;
use std::alloc::{AllocError, AllocFailed};
use std::fmt::Display;
use thiserror::Error;

/// Why a call gives nothing: memory ran out, or the cause that it tells. The errors of the crates above are made so, and `?` takes want of memory to each
/// of them.
#[derive(Clone, Copy, Debug, PartialEq, Eq, Drop, Error)]
#[error_bound(E: Display)]
pub enum Failure<E> {
    #[error("out of memory")]
    Memory,
    #[error("{0}")]
    Cause(E),
}

impl<E> From<Memory> for Failure<E> {
    ghost from_gives = { λ _ e. e ≡ failures.Memory };

    fn from(_: Memory) -> Failure<E> {
        Failure::Memory
    }
}

impl<E> From<AllocError> for Failure<E> {
    ghost from_gives = { λ _ e. e ≡ failures.Memory };

    fn from(_: AllocError) -> Failure<E> {
        Failure::Memory
    }
}

impl<E, T: Drop> From<AllocFailed<T>> for Failure<E> {
    ghost from_gives = { λ _ e. e ≡ failures.Memory };

    fn from(_: AllocFailed<T>) -> Failure<E> {
        Failure::Memory
    }
}
