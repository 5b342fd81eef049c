//! A text that is written part by part. Where memory runs out, that is said once, at the end.

use std::alloc::{AllocError, Global};
use std::fmt::Debug;

/// A text that is being written.
#[derive(Drop)]
pub struct Out {
    text: String,
    is_whole: bool,
}

impl Out {
    pub fn new(alloc: Global) -> Out {
        Out {
            text: String::new(alloc),
            is_whole: true,
        }
    }

    pub fn is_empty(&self) -> bool {
        self.text.as_str().is_empty()
    }

    fn note(&mut self, written: Result<(), AllocError>) {
        if written.is_err() {
            self.is_whole = false;
        }
    }

    pub fn put(&mut self, part: &str) {
        let written = self.text.push_str(part);
        self.note(written);
    }

    /// Bytes, each as the character of that number.
    pub fn bytes(&mut self, bytes: &[u8]) {
        for byte in bytes {
            let written = self.text.push(char::from(*byte));
            self.note(written);
        }
    }

    pub fn byte_digits(&mut self, byte: u8) {
        let written = write!(self.text, "\\x{byte:02x}");
        self.note(written);
    }

    /// A number in decimal, or a value by the name of its variant.
    pub fn show<T: Debug + Drop>(&mut self, value: T) {
        let written = write!(self.text, "{value:?}");
        self.note(written);
    }

    /// What was written, if memory sufficed for all of it.
    pub fn finish(self) -> Result<String, AllocError> {
        let Out { text, is_whole } = self;
        if is_whole { Ok(text) } else { Err(AllocError) }
    }

    /// The same of a list: without a blank at its end, and `none` where nothing was written.
    pub fn finish_list(self) -> Result<String, AllocError> {
        let alloc = *self.text.allocator();
        let text = self.finish()?;
        let text = text.as_str().trim_end();
        String::from_str(alloc, if text.is_empty() { "none" } else { text })
    }
}
