// Laws of lists and of numbers laid in them. There is no code here: specs/ is the library.
#![tactic(auto)]
