// Why a line isn't carried out.
use crate::expected::Expected;
use std::alloc::{AllocError, AllocFailed};

#[derive(Clone, Copy)]
pub enum Failure {
    // The line can't be used.
    Unusable(Expected),
    Memory(AllocError),
}

impl From<Expected> for Failure {
    fn from(expected: Expected) -> Failure {
        Failure::Unusable(expected)
    }
}

impl From<AllocError> for Failure {
    fn from(error: AllocError) -> Failure {
        Failure::Memory(error)
    }
}

impl<T: Drop> From<AllocFailed<T>> for Failure {
    fn from(refused: AllocFailed<T>) -> Failure {
        Failure::Memory(refused.into())
    }
}
