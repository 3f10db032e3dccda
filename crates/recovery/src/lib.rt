// What families are for: any two disks of their arrays have a plan, and so has each. A test of a code that computes, and is proved sound; there is nothing to run.

#![tactic(auto)]
