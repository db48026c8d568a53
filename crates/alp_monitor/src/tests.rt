//! Threads take turns on lists of numbers, and each turn stands where it was made.
mod crossing;
mod four;
mod numbers;
mod sixteen;
mod turns;
mod woken;
