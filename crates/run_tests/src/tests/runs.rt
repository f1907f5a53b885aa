//! Tests of explorations, live sessions, scripts on threads, and of command lines that start no run.

mod explorations;
mod live;
mod stops;
mod threads;
mod words;
