//! Both processors' steps, on rows that were worked by hand.

mod branches;
mod buses;
mod cache;
mod conditions;
mod data;
mod exceptions;
mod footprints;
mod forms;
mod lines;
mod lists;
mod multiplies;
mod near;
mod operations;
mod saved;
mod statuses;
mod thumb;
mod transfers;
mod variants;
