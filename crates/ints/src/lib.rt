// Laws of signed numbers stand in specs/. There is no code here.
#![tactic(auto)]
