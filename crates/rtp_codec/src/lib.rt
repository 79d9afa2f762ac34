//! RTP packets with GSM full-rate payload: read with their refusals in order, and written.
#![tactic(auto)]

mod fault;
mod head;
mod laws;
mod opened;
mod read;
mod view;
mod write;

pub use fault::RtpFault;
pub use head::RtpHead;
pub use laws::read_back;
pub use opened::RtpOpen;
pub use read::{first_unsigned, read_head, read_rtp};
pub use view::RtpView;
pub use write::write_rtp;

#[cfg(test)]
mod tests;
