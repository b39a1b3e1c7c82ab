//! Tests of the disk in memory and of the disk that fails, from outside and through the trait's bound.

mod again;
mod aside;
mod beside;
mod bound;
mod calls;
mod change;
mod cutting;
mod failing;
mod folder;
mod gathered;
mod hostile;
mod large;
mod listing;
mod locks;
mod lost;
mod marks;
mod memory;
mod modelled;
mod names;
mod refused;
mod sight;
mod stage;
mod table;
mod views;
mod writer;
