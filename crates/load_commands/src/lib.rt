// Reads each command of a table from bytes, and answers its refusal or the progress after it.
#![tactic(auto)]

mod changes;
pub mod progress;
pub mod rows;
pub mod table_command;
