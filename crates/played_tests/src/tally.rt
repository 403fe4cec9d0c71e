// How often each text came.
use std::alloc::{AllocError, Global};

/// Texts in the order in which they first came, and how often each did.
#[derive(Drop)]
pub struct TextTally {
    pub texts: Vec<(String, u64)>,
}

impl TextTally {
    /// No text.
    pub fn new(alloc: Global) -> TextTally {
        TextTally {
            texts: Vec::new(alloc),
        }
    }

    /// Counts a text.
    pub fn count(&mut self, text: String) -> Result<(), AllocError> {
        for (known, times) in self.texts.iter_mut() {
            if known.as_str() == text.as_str() {
                *times = times.saturating_add(1);
                return Ok(());
            }
        }
        self.texts.push((text, 1))?;
        Ok(())
    }
}
