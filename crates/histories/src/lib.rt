// Histories of calls on a held cue: definitions and lemmas alone, for the contracts of the calls.
#![tactic(auto)]
