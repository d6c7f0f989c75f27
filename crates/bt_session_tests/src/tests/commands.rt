//! Scripts and what they print, and commands over bytes and devices.

mod examples;
mod faults;
mod picks;
mod reports;
mod scripts;
mod serial;
mod settings;
mod threads;
