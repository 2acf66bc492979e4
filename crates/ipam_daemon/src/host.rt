//! What a daemon runs on.
use log::Log;
use std::sync::Wait;
use std::thread::Threads;
use std::time::Clock;

/// A runtime that makes threads, waits, logs, writes on standard error and has a clock, and of which each thread has a
/// copy.
pub trait Host: Threads + Wait + Log + Eprint + Clock + Copy + Send + Drop + 'static {}

impl<R: Threads + Wait + Log + Eprint + Clock + Copy + Send + Drop + 'static> Host for R {}
