//! The bound of arrows of a picture. Whole pictures and pages are compared by `draw_pictures`.

use crate::ladders::drawn;
use bsc_chart::{ChartError, MAX_ARROWS};
use std::alloc::Global;
use std::test::Fail;

/// Draws a picture of this many arrows.
fn drawn_arrows(alloc: Global, count: usize, asked: &str) -> Result<u64, ChartError> {
    let trace = "+1 control sent EOT 161604ff\n".repeat(alloc, count)?;
    drawn(alloc, &trace, asked, &mut Vec::new(alloc))
}

/// 5,000 arrows are drawn and one more is refused, unless it is out of the range.
#[test]
fn arrows_at_their_bound(rt: HostRuntime) -> Result<(), Fail> {
    assert!(rt; drawn_arrows(rt.alloc(), MAX_ARROWS, "svg").is_ok());
    assert!(rt; drawn_arrows(rt.alloc(), MAX_ARROWS + 1, "svg from=2").is_ok());
    let more = drawn_arrows(rt.alloc(), MAX_ARROWS + 1, "html");
    assert!(rt; matches!(more, Err(ChartError::TooMany)));
    Ok(())
}
