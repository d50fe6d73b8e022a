// What a device is and what a bank of devices is, the layers over any device, and the bank that plugging makes.
#![tactic(auto)]

pub mod bank;
pub mod buffer;
pub mod code_changer;
pub mod code_table;
pub mod device;
pub mod plugged;
pub mod refusal;
pub mod ring_off;
