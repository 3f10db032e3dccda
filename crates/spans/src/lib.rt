// The theory of what patterns and rows span: how much is gone with the wanted symbols, and the equations among the survivors. It has no code.

#![tactic(auto)]
