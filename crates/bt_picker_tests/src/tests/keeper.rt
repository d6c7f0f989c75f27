//! A keeper of few blocks, and one of a large torrent.

mod large;
mod small;
mod steps;
