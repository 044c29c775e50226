// The bits of the control word and the values of the status word.
pub use device::{
    LEAVE_DISABLED, LEAVE_HOLD, MODE_ACTIVE, RESET_FAULT, STATUS_ACTIVE, STATUS_DISABLED,
    STATUS_FAULT, STATUS_HOLD, TARGET_MET,
};
