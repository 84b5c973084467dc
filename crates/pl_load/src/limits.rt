//! The greatest sizes of files.

ghost use Rattle.std.specs.Prelude.{◌≡◌, ◌<◌, ◌^◌};
ghost use Rattle.pl_load.specs.Work as spec;

use crate::fault::Limit;
use pl_words::InputFile;

/// The greatest number of bytes of a pipeline file. Both limits are this project's own.
pub const PIPELINE_CAP: usize = 262_144;

/// The greatest number of bytes of a data file.
pub const FILE_CAP: usize = 536_870_912;

/// The greatest number of bytes of a file, by what it is to the command.
pub fn cap_of(file: InputFile) -> usize
    ensures value { result ≡ spec.cap_of file }
    ensures small { result < 2 ^ 32 }
{
    match file {
        InputFile::Pipeline => PIPELINE_CAP,
        InputFile::Sessions
        | InputFile::Assets
        | InputFile::Labels
        | InputFile::Numbers
        | InputFile::Results
        | InputFile::Bars
        | InputFile::Revisions
        | InputFile::Payouts
        | InputFile::Derivation => FILE_CAP,
    }
}

/// The limit that a file of more bytes passes.
pub fn limit_of(file: InputFile) -> Limit
    ensures { result ≡ spec.limit_of file }
{
    match file {
        InputFile::Pipeline => Limit::Pipeline,
        InputFile::Sessions
        | InputFile::Assets
        | InputFile::Labels
        | InputFile::Numbers
        | InputFile::Results
        | InputFile::Bars
        | InputFile::Revisions
        | InputFile::Payouts
        | InputFile::Derivation => Limit::File,
    }
}
