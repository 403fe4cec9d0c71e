//! The laws of a module's table of rows, by those of its banks. A law is what a function here ensures; the functions do
//! nothing when they run.
#![tactic(auto)]

ghost use Rattle.module_laws.specs.Serves.{BankTableLaw, ServedByBanksLaw, RoomByBankLaw, LastCutLaw};

/// The rows of a bank's lines, and the power cuts, are the table of the bank's history.
pub fn bank_tables_are_those_of_histories()
    ensures { BankTableLaw }
{}

/// An answered read of the module has the newest bytes of its line, since it has them in its bank.
pub fn modules_serve_as_their_banks()
    ensures { ServedByBanksLaw }
{}

/// Every row finds each bank holding no more writes and reads than it may, whichever bank the row is of.
pub fn every_row_finds_room()
    ensures { RoomByBankLaw }
{}

/// Where the last row is a power cut, and no event came behind its tick, the bank's history ends with that cut.
pub fn last_cuts_end_histories()
    ensures { LastCutLaw }
{}
