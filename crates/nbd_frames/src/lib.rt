//! The bytes of NBD, the protocol of a disk over a socket: the handshake's greeting, options and
//! replies, and the requests and replies that follow it. (Fixed newstyle, and simple replies.)
#![tactic(auto)]

mod handshake;
mod numbers;
mod replies;
mod request;

pub use handshake::{
    Choice, MOST_DATA, OptionHeader, Reply, asks_info, export_bytes, greet, info_bytes, read_flags,
    read_option, reply_front,
};
pub use replies::{Failure, reply};
pub use request::{Command, RequestHeader, read_request};
