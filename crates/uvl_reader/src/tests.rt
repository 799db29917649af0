//! A file is read on the happy path.
use crate::read_model;
use std::test::Fail;

#[test]
fn a_file_is_read(rt: HostRuntime) -> Result<(), Fail> {
    let file =
        b"features\n\tPhone\n\t\tmandatory\n\t\t\tCalls\n\t\t\tScreen\n\t\t[0..1]\n\t\t\tCamera {constraint Screen}\nconstraints\n\tCamera => Calls\n";
    let model = read_model(rt.alloc(), file)?;
    assert_eq!(rt; model.features.len(), 4);
    assert_eq!(rt; model.constraints.len(), 2);
    Ok(())
}
