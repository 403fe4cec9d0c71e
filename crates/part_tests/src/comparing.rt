use std::process::Abort;

/// Stops a test whose answer is not the one expected. A function, and no macro, so that each test's proof has a call in place of
/// the comparison and of the text that a failure prints.
pub fn compare<T: PartialEq + Drop>(rt: &impl Abort, answer: T, expected: T) {
    assert!(rt; answer == expected);
}
