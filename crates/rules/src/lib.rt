// The definitions of timing rules and of the theorems about them stand in specs/. There is no code here.
#![tactic(auto)]
