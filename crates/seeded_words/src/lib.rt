//! The words that a seed makes, one after another: what cells, keys and generated traces are drawn by. Definitions alone.
#![tactic(auto)]
