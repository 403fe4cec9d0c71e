//! The program that shows the image of a large module as one call over its words, and the places where its bytes come from and go to: it
//! prints the newest bytes of every line of which a byte isn't 0. The call's contract says what is written, and what each status means.
#![tactic(auto)]

mod fault;
mod program;
mod show;

pub use program::view_run;
