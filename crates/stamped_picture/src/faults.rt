//! Why no picture was drawn, and the line that says so.

ghost use Rattle.std.specs.Prelude.{◌≡◌, IfOk, IfErr, string_bytes};
ghost use Rattle.stamp_cli.specs.declared.faults.ServeFault.TheVariants.{Memory};
ghost use Rattle.stamped_picture.specs.declared.faults.PictureFault.TheVariants.{Serve, TooMany};
ghost use Rattle.stamped_picture.specs.FaultText.{picture_fault, picture_fault_text};

use stamp_cli::{ServeFault, named_fault_line};
use stamp_history::ReadError;
use stamp_picture::PictureError;
use std::alloc::{AllocError, Global};

/// Why there is no picture.
#[derive(Clone, Copy)]
pub(crate) enum PictureFault {
    /// What `stamped check` refuses too.
    Serve(ServeFault),
    /// There was no input, not a byte.
    NoInput,
    /// So many entries were to be drawn.
    TooMany(u64),
}

impl From<ServeFault> for PictureFault {
    ghost from_gives = { λ fault e. e ≡ Serve fault };

    fn from(fault: ServeFault) -> PictureFault {
        PictureFault::Serve(fault)
    }
}

impl From<ReadError> for PictureFault {
    ghost use Rattle.stamp_cli.specs.Refusal.{refusal};

    ghost from_gives = { λ error e. e ≡ Serve (refusal error) };

    fn from(error: ReadError) -> PictureFault {
        PictureFault::Serve(ServeFault::from(error))
    }
}

impl From<AllocError> for PictureFault {
    ghost use Rattle.stamp_cli.specs.declared.faults.ServeFault.TheVariants.{Memory};

    ghost from_gives = { λ _ e. e ≡ Serve Memory };

    fn from(_refused: AllocError) -> PictureFault {
        PictureFault::Serve(ServeFault::Memory)
    }
}

impl From<PictureError> for PictureFault {
    ghost from_gives = { λ error e. e ≡ picture_fault error };

    fn from(error: PictureError) -> PictureFault {
        match error {
            PictureError::Memory => PictureFault::Serve(ServeFault::Memory),
            PictureError::TooMany(count) => PictureFault::TooMany(count),
        }
    }
}

/// The line for standard error, without its line feed.
pub(crate) fn fault_line(alloc: Global, fault: &PictureFault) -> Result<String, PictureFault>
    ensures text { IfOk result (λ line. string_bytes line ≡ picture_fault_text fault.now) }
    ensures refused { IfErr result (λ e. e ≡ Serve Memory) }
{
    match fault {
        PictureFault::Serve(fault) => Ok(named_fault_line(alloc, "stamped_picture", fault)?),
        PictureFault::NoInput => Ok(String::from_str(alloc, "stamped_picture: no input")?),
        PictureFault::TooMany(count) => {
            Ok(format!(in alloc;
                "stamped_picture: {count} entries to draw, over 2000: give --from A --to B, or --html"
            )?)
        }
    }
}
