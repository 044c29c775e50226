// The blocks, as 2000h selects them.
pub use objects::{POSITION, PRESSURE};
