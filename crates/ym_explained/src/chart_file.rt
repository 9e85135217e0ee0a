//! The file of a chart.

use std::fs::{File, Files};
use std::io::Write;
use std::{fs, io};

/// Why a chart is not written.
pub(crate) enum ChartFault {
    /// A file of this name is there already.
    There,
    /// The system refused a call.
    System(io::Error),
}

impl From<io::Error> for ChartFault {
    ghost use Rattle.std.specs.Prelude.{◌≡◌};
    ghost use Rattle.ym_explained.specs.declared.chart_file.ChartFault.TheVariants.{System};

    ghost from_gives = { λ error fault. fault ≡ System error };

    fn from(error: io::Error) -> ChartFault {
        ChartFault::System(error)
    }
}

/// Opens what is at this path and is no file, as a terminal or a pipe.
fn open_device<R: Files<File = File>>(rt: &R, path: &str) -> Result<File, ChartFault> {
    if fs::metadata(rt, path)?.is_file() {
        return Err(ChartFault::There);
    }
    Ok(File::options().write(true).open(rt, path)?)
}

/// Writes a new file at this path, or to a device there. No file that is there is overwritten, and
/// one that cannot be written whole is not left.
pub(crate) fn write_chart<R: Files<File = File>>(
    rt: &R,
    path: &str,
    text: &str,
) -> Result<(), ChartFault> {
    match File::create_new(rt, path) {
        Ok(mut file) => {
            let written = file.write_all(text.as_bytes());
            if written.is_err() {
                // What stands there is a part of a chart, and nobody's file.
                let _ = fs::remove_file(rt, path);
            }
            Ok(written?)
        }
        Err(error) if error.kind() == io::ErrorKind::AlreadyExists => {
            let mut device = open_device(rt, path)?;
            Ok(device.write_all(text.as_bytes())?)
        }
        Err(error) => Err(ChartFault::System(error)),
    }
}
