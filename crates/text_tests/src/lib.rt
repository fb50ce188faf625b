//! Tests of the texts that are read and written: scripts, settings, traces, reports and the words of command lines, over public calls
//! alone. They catch what no clause says: that a call succeeds while there is memory, and the literal words of each line.
#![tactic(auto)]

#[cfg(test)]
mod entry_lines;
#[cfg(test)]
mod limits;
#[cfg(test)]
mod plan_lines;
#[cfg(test)]
mod scribes;
#[cfg(test)]
mod script_lines;
#[cfg(test)]
mod setting_lines;
#[cfg(test)]
mod traces;
#[cfg(test)]
mod words;
