// Families of codes that can be asked for by name, and which parameters are listed.
#![tactic(auto)]

pub mod listed; // listed.rt: the parameters that refusal 36 lets through, and what follows from them

// A family and its parameters, as documents 01 and 02 list them.
#[derive(Clone, Copy)]
pub enum Family {
    SingleParity { data_disks: usize, rows: usize },
    Liberation { w: usize, data_disks: usize },
    RowDiagonal { p: usize },
    EvenOdd { p: usize },
}
