// No code: what a writer of streams is advised against, in `specs/Findings.antt`, and what checking tells, in
// `specs/Checking.antt`.
#![tactic(auto)]
