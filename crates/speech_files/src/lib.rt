//! Files of speech and of coded frames: the commands `decode` and `encode`.
#![tactic(auto)]

mod decode_command;
mod encode_command;

pub use decode_command::decode;
pub use encode_command::encode;

#[cfg(test)]
mod tests;
