// Text in a caller's bytes.
use std::fmt;
use std::fmt::Write;

// A caller's bytes as text goes into them, and where it ends. A byte that finds no room is left out.
#[derive(Drop)]
pub struct Room<'a> {
    pub text: &'a mut [u8],
    pub end: usize,
}

impl Write for Room<'_> {
    fn write_str(&mut self, part: &str) -> fmt::Result {
        for byte in part.as_bytes() {
            if self.end < self.text.len() {
                self.text[self.end] = *byte;
                self.end += 1;
            }
        }
        Ok(())
    }
}
