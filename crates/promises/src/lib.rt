// No code: the theorems that a reader must see, over the very definitions that the contracts cite.
#![tactic(auto)]
