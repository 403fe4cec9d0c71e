//! What goes in and out, each by itself: sources and sinks, words, traces, results and reports. What each must answer
//! was worked out by hand from the formats.
#![tactic(auto)]

#[cfg(test)]
mod digits;
#[cfg(test)]
mod expected;
#[cfg(test)]
mod generated;
#[cfg(test)]
mod maps;
#[cfg(test)]
mod printed;
#[cfg(test)]
mod read_back;
#[cfg(test)]
mod rows;
#[cfg(test)]
mod sources;
#[cfg(test)]
mod stream_options;
#[cfg(test)]
mod streams;
#[cfg(test)]
mod summaries;
#[cfg(test)]
mod traces;
#[cfg(test)]
mod verdicts;
#[cfg(test)]
mod wear;
#[cfg(test)]
mod words;
