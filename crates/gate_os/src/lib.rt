//! The operating system's files, sockets and clock, as sources, sinks, links and ticks.
#![tactic(auto)]

mod life;
mod os_clock;
mod os_sink;
mod os_source;
mod reading;
mod times;
mod udp_link;
mod udp_socket;

pub use gate_base::OutOfMemory;
pub use os_clock::OsClock;
pub use os_sink::OsSink;
pub use os_source::OsSource;
pub use reading::Reading;
pub use udp_link::UdpLink;

#[cfg(test)]
mod hand_clock;
