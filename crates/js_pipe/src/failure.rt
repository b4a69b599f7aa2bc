//! Why the program ends before all is done.

ghost use Rattle.std.specs.Prelude.{◌≡◌, ◌<◌, OnOk, IfErr};
ghost use Rattle.std.specs.Result.{result_map_both};
ghost use Rattle.js_pipe.specs.Failure.{exit_code as code_of};
ghost use Rattle.js_pipe.specs.declared.failure.Failure.TheVariants as failure;

use js_base::OutOfMemory;
use std::alloc::{AllocError, AllocFailed};
use std::fmt::Display;

/// Why the program ends before all is done.
#[derive(Clone, Copy, Debug, PartialEq, Eq)]
pub enum Failure {
    /// The connection ended, does not answer, or brings damaged bytes.
    Lost,
    /// The words name no command.
    Usage,
    /// The server refuses, or does not say that it did what was asked.
    Refused,
    /// The file to write to cannot be opened, or standard input, standard output, the clock or the
    /// random bytes of the system failed.
    Fault,
    OutOfMemory,
    /// All that was asked for is done, but its recording is not whole.
    Unrecorded,
}

impl Failure {
    fn exit_code(self) -> u8
        ensures code { result ≡ code_of self }
        ensures positive { 0 < result }
    {
        match self {
            Failure::Lost => 1,
            Failure::Usage => 2,
            Failure::Refused => 3,
            Failure::Fault => 4,
            Failure::OutOfMemory => 5,
            Failure::Unrecorded => 6,
        }
    }
}

/// Returns the exit status of the program: 0 if all was done, and otherwise a number for each
/// failure.
pub fn exit_code(ended: Result<(), Failure>) -> u8
    ensures done { OnOk ended (result ≡ 0) }
    ensures failed { IfErr ended (λ failure. result ≡ code_of failure) }
    ensures positive { IfErr ended (λ _. 0 < result) }
{
    match ended {
        Ok(()) => 0,
        Err(failure) => failure.exit_code(),
    }
}

impl From<OutOfMemory> for Failure {
    ghost from_gives = { λ _ told. told ≡ failure.OutOfMemory };

    fn from(_error: OutOfMemory) -> Failure {
        Failure::OutOfMemory
    }
}

impl<T: Drop> From<AllocFailed<T>> for Failure {
    ghost from_gives = { λ _ told. told ≡ failure.OutOfMemory };

    fn from(_error: AllocFailed<T>) -> Failure {
        Failure::OutOfMemory
    }
}

impl From<AllocError> for Failure {
    ghost from_gives = { λ _ told. told ≡ failure.OutOfMemory };

    fn from(_error: AllocError) -> Failure {
        Failure::OutOfMemory
    }
}

/// Tells an error on standard error, and returns the failure that stands for it.
pub fn tell<E: Display, R: Eprint>(rt: &R, error: &E, failure: Failure) -> Failure
    ensures { result ≡ failure }
{
    let _ = eprintln!(rt; "{error}");
    failure
}

/// Returns the value, or tells the error and fails with the failure that stands for it.
pub fn told<T, E: Display + Drop, R: Eprint>(
    rt: &R,
    answer: Result<T, E>,
    failure: Failure,
) -> Result<T, Failure>
    ensures { result ≡ result_map_both (λ value. value) (λ _. failure) answer }
{
    match answer {
        Ok(value) => Ok(value),
        Err(error) => {
            let failure = tell(rt, &error, failure);
            drop(error);
            Err(failure)
        }
    }
}
