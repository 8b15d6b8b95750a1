// No code: what is a value of a type and what its bytes are, and that packing and unpacking accept and give exactly these.
#![tactic(auto)]
