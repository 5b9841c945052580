//! What ends a run.
ghost use Rattle.ffs_report.specs.declared.fault.RunFault.TheVariants.{Read, Out};
ghost use Rattle.std.specs.Prelude.{◌≡◌};

use crate::output::OutFault;
use ffs_image::ImageFault;

/// What ends a phase, and with it a run of the program (no Run of fragments): a read of the image
/// that failed, or a write of the report. It is the public name of all faults that end a run, of
/// phases and of commands (`ffs_find`) alike: so it has no phase's name.
#[derive(Clone, Copy, Debug, PartialEq, Eq, thiserror::Error)]
pub enum RunFault {
    /// A read of the image failed, at this sector.
    #[error("the image can't be read")]
    Read(ImageFault),
    /// The output failed.
    #[error("the report can't be written")]
    Out(OutFault),
}

impl From<ImageFault> for RunFault {
    ghost from_gives = { λ fault run. run ≡ Read fault };

    fn from(fault: ImageFault) -> Self {
        RunFault::Read(fault)
    }
}

impl From<OutFault> for RunFault {
    ghost from_gives = { λ fault run. run ≡ Out fault };

    fn from(fault: OutFault) -> Self {
        RunFault::Out(fault)
    }
}
