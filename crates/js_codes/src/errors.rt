//! The error in a response of the API.

ghost use Rattle.std.specs.Prelude.{◌≡◌};
ghost use Rattle.js_codes.specs.Errors.{api_source, error_fields, error_value};

pub use crate::error_code::ErrorCode;
use js_base::{ApiError, OutOfMemory, Source, Text, TryClone};
use js_json_members::{FromValue, Key, Object, ReadError, ToValue, defaulted, optional, required};
use serde_json::Value;
use std::alloc::Global;
use std::{error, fmt};

/// The error that the API sends in place of a result.
/// It prints as `js_base::ApiError` does: `stream not found (code 404, error code 10059)`.
#[derive(Debug, PartialEq, Eq, Drop)]
pub struct Error {
    /// The kind of error, as an HTTP status code.
    pub code: u64,
    /// The number that identifies the error.
    pub err_code: ErrorCode,
    /// The server's description of the error, if it sent one.
    pub description: Option<Text>,
}

impl Error {
    /// Returns the kind of error, as an HTTP status code.
    pub fn code(&self) -> u64
        ensures { result ≡ self.now.code }
    {
        self.code
    }

    /// Returns the number that identifies the error.
    pub fn error_code(&self) -> ErrorCode
        ensures { result ≡ self.now.err_code }
    {
        self.err_code
    }

    /// Returns the number that identifies the error, as `error_code` does.
    pub fn kind(&self) -> ErrorCode
        ensures { result ≡ self.now.err_code }
    {
        self.err_code
    }

    /// Converts the error into the source of a call's error.
    pub fn into_source(self) -> Source
        ensures { result ≡ api_source self }
    {
        Source::Api {
            code: self.code,
            err_code: self.err_code.0,
            description: self.description,
        }
    }
}

impl fmt::Display for Error {
    ghost use Rattle.std.specs.Prelude.{Some};
    ghost use Rattle.js_codes.specs.Errors.{error_text};

    ghost output = { λ e. Some (error_text e) };

    fn fmt<W: fmt::Write>(&self, f: &mut fmt::Formatter<W>) -> fmt::Result {
        let error = ApiError {
            code: self.code,
            err_code: self.err_code.0,
            description: self.description.as_ref(),
        };
        write!(f, "{error}")
    }
}

impl error::Error for Error {}

impl TryClone for Error {
    fn try_clone(&self) -> Result<Error, OutOfMemory> {
        Ok(Error {
            code: self.code,
            err_code: self.err_code,
            description: self.description.try_clone()?,
        })
    }
}

impl FromValue for Error {
    ghost fields = { error_fields };

    #[tactic(auto, unfolding(crate::specs::Errors::error_fields))]
    fn from_fields(alloc: Global, object: &Value) -> Result<Error, ReadError> {
        Ok(Error {
            code: required(alloc, object, Key::Code)?,
            err_code: defaulted(alloc, object, Key::ErrCode)?,
            description: optional(alloc, object, Key::Description)?,
        })
    }
}

impl ToValue for Error {
    ghost written = { error_value };

    #[tactic(auto, unfolding(crate::specs::Errors::error_value))]
    fn to_value(&self, alloc: Global) -> Result<Value, ReadError> {
        Object::new(alloc)
            .always(alloc, Key::Code, &self.code)
            .always(alloc, Key::ErrCode, &self.err_code)
            .or_null(alloc, Key::Description, &self.description)
            .finish()
    }
}
