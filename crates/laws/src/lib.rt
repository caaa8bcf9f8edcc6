// Laws of the definitions, which more than one crate cites, stand in specs/. No function.
#![tactic(auto)]
