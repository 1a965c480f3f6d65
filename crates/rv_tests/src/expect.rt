//! What tests expect. Each assertion is proved here, once, and each use of it is a call.
use std::fmt::Debug;
use std::process::Abort;

/// Stops, and shows both, if the value that was found isn't the one that was wanted.
pub(crate) fn same<T: PartialEq + Debug + Drop>(rt: &impl Abort, found: T, want: T) {
    assert_eq!(rt; found, want);
}

/// Stops, and shows the case, if it doesn't hold.
pub(crate) fn holds<T: Debug + Drop>(rt: &impl Abort, is_so: bool, case: T) {
    assert!(rt; is_so, "{case:?}");
}
