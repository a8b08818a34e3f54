// The definitions of the fixed-column MPS page, of reading it, and of the theorems about them stand in specs/. There is no code here.
#![tactic(auto)]
