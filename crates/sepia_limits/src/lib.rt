// The largest sizes that include/sepia.h offers to callers, and what they promise, stand in specs/Limits.antt.
// There is no code here.
#![tactic(auto)]
