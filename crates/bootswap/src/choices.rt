//! A test of a choice over a reader and a writer, as a caller of the library makes it.

use boot_cli::{ChooseEnd, choose_over};
use std::test::Fail;

#[test]
fn a_choice_over_memory_writes_its_report(rt: HostRuntime) -> Result<(), Fail> {
    let alloc = rt.alloc();
    let mut table = b"image 0 1.0.0+0 0 0\nimage 1 1.0.0+0 0 0\n".as_slice();
    let mut out = Vec::new(alloc);
    let end = choose_over(alloc, &mut table, &mut out);
    assert!(rt; matches!(end, ChooseEnd::Done));
    assert!(rt; out.as_slice() == b"run 0 1.0.0+0\nrun 1 1.0.0+0\n".as_slice());
    Ok(())
}
