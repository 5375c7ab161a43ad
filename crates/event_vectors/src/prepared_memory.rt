//! Runs over memory that was allocated before need no more.

use crate::vectors::{DEFAULT_SIZE, LinesVector, tables};
use bumpalo::Bump;
use event_log::{Device, run};
use std::process::Abort;
use std::test::Fail;

/// Checks that, with every allocation refused, a run writes the lines of a vector into memory that
/// was allocated before.
fn assert_written(rt: &(impl Abort + AllocGlobal), vector: &LinesVector) -> Result<(), Fail> {
    // The parser of a run has this size.
    if vector.size != DEFAULT_SIZE {
        return Ok(());
    }
    let bytes = vector.bytes(rt.alloc())?;
    let want = vector.text(rt.alloc())?;
    let memory = Bump::new(rt.alloc());
    let mut written = Vec::with_capacity(&memory, want.len())?;
    // Use up the rest of the arena.
    let _filling = memory.try_alloc_slice_fill_clone(memory.chunk_capacity(), &0u8)?;
    memory.set_allocation_limit(Some(0));
    let result = run(
        &mut Device::new(bytes.as_slice()),
        &mut Device::new(&mut written),
    );
    assert_eq!(rt; result, Ok(()), "{}", vector.name);
    assert!(rt; written.as_slice() == want.as_bytes(), "{}", vector.name);
    Ok(())
}

fn assert_vectors_written(
    rt: &(impl Abort + AllocGlobal),
    vectors: &[LinesVector],
) -> Result<(), Fail> {
    for vector in vectors {
        assert_written(rt, vector)?;
    }
    Ok(())
}

#[test]
fn run_takes_no_memory(rt: HostRuntime) -> Result<(), Fail> {
    for table in tables() {
        assert_vectors_written(&rt, table)?;
    }
    Ok(())
}
