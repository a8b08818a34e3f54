// The text that a rule is printed as, what the printer refuses and answers, and the theorems about them stand in specs/. There is no code here.
#![tactic(auto)]
