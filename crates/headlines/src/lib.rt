// The demands and requests as statements about what the calls answer and write, and the list of all headline theorems, stand in specs/.
// There is no code here.
#![tactic(auto)]
