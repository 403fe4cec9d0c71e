//! What the theorem says: when a run of a module is right. Definitions alone, over the rules of row_rules: whoever reads these two
//! crates knows what is promised; the laws and the programs cite them.
//!
//! In specs/, from the headline down. `Runs` has `RunsRight`: what the rows say, what a log shows, where the newest bytes are in the
//! end, and which cells were never pulsed. `Banks` and `Tables` say of which bank a line is, and which rows are a bank's. Of a bank,
//! `KeepsPlaces` (over `Places` and `WornLines`) says where its rows stood, which lines are worn, and how much was pulsed; `KeepsLines`
//! (over `LineWrites`) how much each line was; `KeepsLog` (over `Logs`) what the array's senses show; and `Ends` where each line's
//! newest bytes are in the end, over what the bank's queue gives then (`Queued`). `Roles` is for the wear report: what each array line
//! is used for in the end.
//!
//! A definition whose name ends in `To` or `_to` is told whether the power stays off behind the last row; where it doesn't, the run ends
//! with nothing left to do.
#![tactic(auto)]
