//! Generated texts beside those worked by hand.
use crate::generating::generate;
use std::alloc::AllocError;

#[test]
fn a_root_with_four_children(rt: HostRuntime) -> Result<(), AllocError> {
    let (model, config) = generate(rt.alloc(), 1, 4)?;
    let lines =
        b"features\n\tF0\n\t\toptional\n\t\t\tF1\n\t\t\tF2\n\t\t\tF3\n\t\t\tF4\nconstraints\n\tF3 => F2\n";
    assert!(rt; model.as_slice() == lines.as_slice());
    assert!(rt; config.as_slice() == b"F3\n".as_slice());
    Ok(())
}
