//! What the image of a right run says. Definitions alone, over right_runs and over what pcm_image reads and writes.
//!
//! In specs/, from the headline down. `SavesRun`: the image says the module's sizes, every cell, how each bank ended, and each line's
//! newest bytes. `SavedBanks`: its registers, its remap table, its queue and its mark; `Queued`: an entry of the queue, as it is
//! saved. `Saving`: what is saved of a module, whatever its rows were; `SensedSince`: what becomes of its array by that.
#![tactic(auto)]
