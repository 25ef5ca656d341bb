//! The writer that fails.

use crate::Full;
use std::io::{ErrorKind, Write};
use std::test::Fail;

#[test]
fn a_writer_fails_when_it_is_full(rt: HostRuntime) -> Result<(), Fail> {
    let mut full = Full { left: 2 };
    full.write_all(b"HI")?;
    full.write_all(b"HO")?;
    for _ in 0..2u8 {
        let error = full.write_all(b"HI").err().ok_or("taken")?;
        assert!(rt; error.kind() == ErrorKind::StorageFull);
    }
    Ok(())
}
