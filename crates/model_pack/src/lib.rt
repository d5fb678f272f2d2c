// Packing has definitions and laws alone here: what they mean stands in specs/. `pack_plan` and `pack` compute them.
#![tactic(auto)]
