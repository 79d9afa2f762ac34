//! RTCP compounds, read with their refusals, and the receiver statistics that a report is made of.
#![tactic(auto)]

mod block;
mod compound;
mod fault;
mod heard;
mod jitter;
mod laws;
mod receiver;
mod sequence;
mod view;
mod write;

pub use block::{ReportBlock, SenderInfo};
pub use compound::read_rtcp;
pub use fault::RtcpFault;
pub use laws::{first_faults, report_read_back};
pub use receiver::Receiver;
pub use view::RtcpView;
pub use write::write_report;

#[cfg(test)]
mod tests;
