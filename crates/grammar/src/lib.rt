// The frame grammar of document 01: definitions, and what holds of them. It has no code, and nothing here
// knows of a reader.
#![tactic(auto)]
