//! The grammar of Verilog text: which trees a list of tokens has.
#![tactic(auto)]
