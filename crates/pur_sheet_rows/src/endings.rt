//! How tests on rows end. A check pays for each assertion, and for each place where a test may end; so they stand here
//! once, and a test is a call.

use std::alloc::AllocError;
use std::process::Abort;

/// The name of the first row that fails, if one does; an error where there is no memory.
pub(crate) type Failing = Result<Option<&'static str>, AllocError>;

/// Stops the test where a row fails, and tells which.
pub(crate) fn assert_none_fails(rt: &impl Abort, failing: Failing) {
    assert_eq!(rt; failing, Ok(None));
}

/// Stops the test unless this holds.
pub(crate) fn assert_holds(rt: &impl Abort, holds: Result<bool, AllocError>) {
    assert_eq!(rt; holds, Ok(true));
}
