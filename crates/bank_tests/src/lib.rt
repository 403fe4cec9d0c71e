//! What a bank turns to, which roles its array lines have, and what its control lines say. What must be answered was worked out by hand from
//! the rules of the device. Whole banks, and two side by side, are played by played_tests.
#![tactic(auto)]

#[cfg(test)]
mod choosing;
#[cfg(test)]
mod comparing;
#[cfg(test)]
mod control_lines;
#[cfg(test)]
mod roles;
