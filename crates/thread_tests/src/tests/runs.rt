//! Tests of scripts on threads that run next to meshers, with a gate that stops the threads at chosen points.

mod clocks;
mod gates;
mod meshers;
mod paced;
mod paces;
