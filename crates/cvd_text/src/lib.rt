//! The text of design files: lines, tokens, the conditions of each line, and the fault of any other text. Definitions alone.
#![tactic(auto)]
