//! Whole runs of the program that can't stand as data: a log of senses is read, a generated trace is read back, an output
//! breaks off, a source is long. What each run must answer was worked out by hand from the rules of the device.
#![tactic(auto)]

#[cfg(test)]
mod drawn;
#[cfg(test)]
mod faults;
#[cfg(test)]
mod harness;
#[cfg(test)]
mod logged;
