#![tactic(auto)]

// Demand 3: the network of a sheet, against the sheet. Definitions and theorems only.
