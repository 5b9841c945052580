//! What ends a run before its report is complete.

use crate::compare::same;
use ffs_image::ImageFault;
use ffs_report::{OutFault, RunFault};
use std::test::Fail;

fn failed_read() -> Result<(), RunFault> {
    Err(ImageFault { sector: 72 })?;
    Ok(())
}

fn failed_write() -> Result<(), RunFault> {
    Err(OutFault)?;
    Ok(())
}

#[test]
fn faults_of_a_run(rt: HostRuntime) -> Result<(), Fail> {
    same(
        &rt,
        &[failed_read(), failed_write()],
        &[
            Err(RunFault::Read(ImageFault { sector: 72 })),
            Err(RunFault::Out(OutFault)),
        ],
    );
    Ok(())
}
