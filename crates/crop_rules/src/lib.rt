// No code: what a crop is, in `specs/Crop.antt`, and what is proved of it, in `specs/Statements.antt`.
#![tactic(auto)]
