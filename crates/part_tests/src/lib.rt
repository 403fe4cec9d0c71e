//! Cells, lines and the parts of a bank, each by itself: what each must answer was worked out by hand from the rules of the device.
#![tactic(auto)]

#[cfg(test)]
mod bytes;
#[cfg(test)]
mod cells;
#[cfg(test)]
mod comparing;
#[cfg(test)]
mod keeping;
#[cfg(test)]
mod mixing;
#[cfg(test)]
mod pointers;
#[cfg(test)]
mod queueing;
#[cfg(test)]
mod rotation;
#[cfg(test)]
mod shapes;
#[cfg(test)]
mod spares;
