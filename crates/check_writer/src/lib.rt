// No code: what our own writers make is free of findings, in `specs/Written.antt`.
#![tactic(auto)]
