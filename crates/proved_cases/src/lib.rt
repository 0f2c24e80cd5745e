// 01's cases to prove together.
#![tactic(auto)]
