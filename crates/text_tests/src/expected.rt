// The assertions that many tests share. Each is proved wherever it stands, with all that lives there, so it stands here once.
use pcm_io::Text;
use std::alloc::AllocError;
use std::process::Abort;
use trace_reader::Event;

/// Stops a test whose answer is not the one expected.
pub(crate) fn compare<T: PartialEq + Drop>(rt: &impl Abort, answer: T, expected: T) {
    assert!(rt; answer == expected);
}

// Compares a text with the one that was worked out by hand.
pub(crate) fn assert_text(rt: &impl Abort, text: &[u8], wanted: &[u8]) {
    assert_eq!(rt; text, wanted);
}

// The same of a text for which there has to be memory.
pub(crate) fn assert_made(rt: &impl Abort, made: Result<Text, AllocError>, wanted: &[u8]) {
    match made {
        Ok(text) => assert_text(rt, text.bytes(), wanted),
        Err(_) => panic!(rt; "no memory"),
    }
}

pub(crate) fn assert_events(rt: &impl Abort, events: &[Event<8>], wanted: &[Event<8>]) {
    assert!(rt; events == wanted);
}
