//! What a manual's walk with nine index bits at each level means to a format.
//!
//! A format is over pages and knows no manual; a manual's walk is over bytes, in the manual's levels and fields, and
//! knows no format. Here a step and a walk of a manual are those of a format of 512 entries over pages of 4 KiB, and
//! where the manual reads what the format writes, the laws on steps and on the walk hold.
//!
//! It stands on formats and on the manuals' walks, and has definitions and lemmas alone.
#![tactic(auto)]
