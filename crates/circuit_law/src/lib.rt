//! Laws of runs of circuits, whatever their notes: a circuit with other notes, and what holds of all notes of a run.
#![tactic(auto)]
