//! Texts of answers that no call over a file has.
use cni_types::{CniError, Code, Version, push_error, push_result};
use ipam_text::Text;
use std::alloc::{AllocError, Global};

/// The error of a call that lost too many races, with these details.
pub(crate) fn again_text(alloc: Global, details: &str) -> Result<String, AllocError> {
    let Some(version) = Version::of("0.4.0") else {
        return Err(AllocError);
    };
    let error = CniError {
        version,
        code: Code::TryAgain,
        details: Text::copied(alloc, details)?,
    };
    let mut out = String::new(alloc);
    push_error(alloc, &mut out, &error)?;
    Ok(out)
}

/// The result of a call of this version that has no addresses.
pub(crate) fn empty_text(alloc: Global, version: &str) -> Result<String, AllocError> {
    let Some(version) = Version::of(version) else {
        return Err(AllocError);
    };
    let mut out = String::new(alloc);
    push_result(alloc, &mut out, version, &[])?;
    Ok(out)
}
