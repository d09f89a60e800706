// No code: the demands, in `specs/Demands.antt`.
#![tactic(auto)]
