// What row-diagonal, EVENODD and Liberation are for: any two disks of an array have a plan. Computed over the definitions; there is nothing to run.

#![tactic(auto)]
