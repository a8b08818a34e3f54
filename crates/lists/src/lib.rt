// Laws of lists stand in specs/. There is no code here.
#![tactic(auto)]
