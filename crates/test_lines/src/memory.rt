//! Memory that tests can't go on without.

use std::alloc::AllocError;

/// Returns the processor that was made, or an error if memory ran out. Each kind of processor
/// returns its timeout then.
pub fn require_memory<P, T: Drop>(made: Result<P, T>) -> Result<P, AllocError> {
    match made {
        Ok(processor) => Ok(processor),
        Err(_timeout) => Err(AllocError),
    }
}
