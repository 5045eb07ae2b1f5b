//! Worked cases that cross crates: the tiling of ranges, the tables of maps, the words of blocks, the calls of one
//! owner, and the walks of the manuals over words made by hand. The expected values were worked out from the
//! manuals and the sizes, and not by the program. It has tests alone.
#![tactic(auto)]

#[cfg(test)]
mod books;
#[cfg(test)]
mod leaves;
#[cfg(test)]
mod owned;
#[cfg(test)]
mod riscv;
#[cfg(test)]
mod tests;
#[cfg(test)]
mod walks;
