// The states, as `rainsheave_state` answers them.
pub use device::{ACTIVE, DISABLED, FAULT, HOLD};
