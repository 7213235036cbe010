// No code: the theorems about document 01's rules stand in specs/, their proofs in proofs/.
#![tactic(auto)]
